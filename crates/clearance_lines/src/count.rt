// What an answer adds to the totals, which are those of a sheet: TOUCH counts as contact, and OPEN is no verdict.
ghost use Rattle.std.specs.Prelude.{◌≡◌};
ghost use Rattle.clearance_lines.specs.Part.{Below};
ghost use Rattle.clearance_lines.specs.Part as Part;
ghost use Rattle.clearance_lines.specs.Lines as Printed;

use clearance_call::Cleared;
use model::{COUNT_LIMIT, Totals};

// Whether every total is below the limit.
pub fn countable(t: Totals) -> bool
    ensures { result ≡ Part.countable t }
{
    (t.blocks < COUNT_LIMIT)
        & (t.clear < COUNT_LIMIT)
        & (t.contact < COUNT_LIMIT)
        & (t.undecided < COUNT_LIMIT)
        & (t.refused < COUNT_LIMIT)
}

// The totals after an answer.
pub fn counted(t: Totals, answer: Cleared) -> Totals
    requires { Below 0xffff_ffff_ffff_ffff t }
    ensures { result ≡ Printed.counted t answer }
{
    let more = Totals {
        blocks: t.blocks + 1,
        ..t
    };
    match answer {
        Cleared::Refused(_) => Totals {
            refused: t.refused + 1,
            ..more
        },
        Cleared::Clear { .. } => Totals {
            clear: t.clear + 1,
            ..more
        },
        Cleared::Touch { .. } => Totals {
            contact: t.contact + 1,
            ..more
        },
        Cleared::Open { .. } => Totals {
            undecided: t.undecided + 1,
            ..more
        },
    }
}
