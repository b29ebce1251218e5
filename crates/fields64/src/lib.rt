// Written by tests/written/wide.py from fields, in f64.
// The fields that the sheet's lines and a route's line share: the letter of a status, and the floats of a contact.
#![tactic(auto)]

ghost use Rattle.std.specs.Prelude.{◌≡◌, ◌+◌, length};
ghost use Rattle.model.specs.Sheet.{letter_of};
ghost use Rattle.text.specs.Put.{where_room};
ghost use Rattle.text.specs.Written.{Room, Wrote};
ghost use Rattle.fields64.specs.Floats.{float_room, contact_room, hex_of, floats};

use model::Status;
use model64::Contact;
use text::Draft;

// Five floats, each with the blank after it.
const CONTACT_ROOM: usize = 85;

pub fn letter_of(status: Status) -> u8
    ensures { result ≡ letter_of status }
{
    match status {
        Status::Overlapped => b'O',
        Status::Hit => b'H',
        Status::Separated => b'S',
        Status::Failed => b'F',
    }
}

// A float by its pattern in hexadecimal digits, any NaN as one, and a blank.
fn put_float(draft: &mut Draft<'_>, x: f64)
    requires { Room float_room draft.old }
    ensures { Wrote float_room draft.old (hex_of x) draft.new }
{
    draft.put_wide_hex(ground64::to_bits(x), b' ');
}

// The floats of a contact, and a blank after each.
fn put_floats(draft: &mut Draft<'_>, c: Contact)
    requires { Room contact_room draft.old }
    ensures { Wrote contact_room draft.old (floats c) draft.new }
{
    put_float(draft, c.fraction);
    put_float(draft, c.point.x);
    put_float(draft, c.point.y);
    put_float(draft, c.normal.x);
    put_float(draft, c.normal.y);
}

// The same, where there is room for them; else nothing is written, and the place stays.
pub fn put_contact(draft: &mut Draft<'_>, c: Contact)
    ensures { Wrote contact_room draft.old
        (where_room (draft.old.at + contact_room) (length draft.old.bytes.now) (floats c)) draft.new }
{
    if draft.lacks(CONTACT_ROOM) {
        return;
    }
    put_floats(draft, c);
}
