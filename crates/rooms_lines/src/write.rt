// A block's line, and the totals, piece by piece.
ghost use Rattle.std.specs.Prelude.{◌≡◌, length, IfOk};
ghost use Rattle.std.specs.Float.{binary32};
ghost use Rattle.text.specs.Written.{Room, Wrote};
ghost use Rattle.rooms_lines.specs.declared.part.Tally.{Tally};
ghost use Rattle.rooms_lines.specs.Lines.{longest_line, line_of, total_line};
ghost use Rattle.rooms_lines.specs.Pieces.{cells_room, room_piece, cells_piece};

use crate::put::put_two;
use rooms_block::BlockRooms;
use text::Draft;

fn put_room(draft: &mut Draft<'_>, room: Option<f32>)
    requires { Room 9 draft.old }
    ensures { Wrote 9 draft.old (room_piece room) draft.new }
{
    match room {
        Some(room) => draft.put_hex(ground::to_bits(room), b' '),
        None => draft.put(b"- "),
    }
}

fn put_cells(draft: &mut Draft<'_>, room: Option<f32>, cells: [u8; 64])
    requires { Room cells_room draft.old × (length cells ≡ 64) }
    ensures { Wrote cells_room draft.old (cells_piece room cells) draft.new }
{
    draft.put(b"0 ");
    put_room(draft, room);
    draft.put(&cells);
    draft.put(b"\n");
}

// The line of block n.
pub fn put_answer(draft: &mut Draft<'_>, n: u64, a: BlockRooms)
    requires { Room longest_line draft.old × IfOk a (λ p. length p.cells ≡ 64) }
    ensures { Wrote longest_line draft.old (line_of n a) draft.new }
{
    match a {
        Ok(proved) => {
            put_two(draft, n, proved.job as u64, b' ');
            put_cells(draft, proved.room, proved.cells);
        }
        Err(refusal) => {
            put_two(draft, n, refusal.job as u64, b' ');
            draft.put_number(refusal.number as u64, b'\n');
        }
    }
}

// The last line.
pub fn put_total(draft: &mut Draft<'_>, blocks: u64, refused: u64)
    requires { Room longest_line draft.old }
    ensures { Wrote longest_line draft.old (total_line (record { blocks = blocks; refused = refused })) draft.new }
{
    draft.put(b"TOTAL ");
    put_two(draft, blocks, refused, b'\n');
}
