// Counts of rows by their table and kind.
ghost use Rattle.std.specs.Prelude.{◌+◌, ◌≤◌};

use std::io::{Result, Write};

const KINDS: u32 = 32;

const TABLES: u32 = 16;

// For each kind of each table: how many rows there were, how many differ from the stored answer, and how many were noticed to differ when the stored
// answer was spoiled on purpose.
pub type Counts = [u32; 1536];

pub fn nothing() -> Counts {
    [0u32; 1536]
}

// Where the three numbers of a kind stand.
fn place(table: u32, kind: u32) -> usize
    ensures { result + 3 ≤ 1536 }
{
    (3 * (table % TABLES * KINDS + kind % KINDS)) as usize
}

// One row more.
pub fn count(counts: &mut Counts, table: u32, kind: u32, differs: bool, noticed: bool) {
    let i = place(table, kind);
    counts[i] = counts[i].wrapping_add(1);
    counts[i + 1] = counts[i + 1].wrapping_add(differs as u32);
    counts[i + 2] = counts[i + 2].wrapping_add(noticed as u32);
}

fn line<W: Write>(
    out: &mut W,
    table: u32,
    kind: u32,
    rows: u32,
    differ: u32,
    noticed: u32,
) -> Result<()> {
    writeln!(
        out,
        "table {table}, kind {kind}: rows {rows}, differ {differ}, noticed {noticed}"
    )
}

// A line for each kind that has rows.
pub fn print<W: Write>(out: &mut W, counts: &Counts) -> Result<()> {
    for k in 0u32..512u32 {
        let table = k / KINDS;
        let kind = k % KINDS;
        let i = place(table, kind);
        if counts[i] > 0 {
            line(out, table, kind, counts[i], counts[i + 1], counts[i + 2])?;
        }
    }
    Ok(())
}
