// What an answer adds to the totals.
ghost use Rattle.std.specs.Prelude.{◌≡◌};
ghost use Rattle.model.specs.Sheet.{one_clear, one_contact, one_undecided, one_refused, one_worked};
ghost use Rattle.model.specs.Sheet as Sheet;
ghost use Rattle.sheet_lines.specs.Part.{Below};
ghost use Rattle.sheet_lines.specs.Part as Part;

use model::{BlockAnswer, COUNT_LIMIT, Status, Totals};

// Whether every total is below the limit.
pub fn countable(t: Totals) -> bool
    ensures { result ≡ Part.countable t }
{
    (t.blocks < COUNT_LIMIT)
        & (t.clear < COUNT_LIMIT)
        & (t.contact < COUNT_LIMIT)
        & (t.undecided < COUNT_LIMIT)
        & (t.refused < COUNT_LIMIT)
}

fn one_clear(t: Totals) -> Totals
    requires { Below 0xffff_ffff_ffff_ffff t }
    ensures { result ≡ one_clear t }
{
    Totals {
        blocks: t.blocks + 1,
        clear: t.clear + 1,
        contact: t.contact,
        undecided: t.undecided,
        refused: t.refused,
    }
}

fn one_contact(t: Totals) -> Totals
    requires { Below 0xffff_ffff_ffff_ffff t }
    ensures { result ≡ one_contact t }
{
    Totals {
        blocks: t.blocks + 1,
        clear: t.clear,
        contact: t.contact + 1,
        undecided: t.undecided,
        refused: t.refused,
    }
}

fn one_undecided(t: Totals) -> Totals
    requires { Below 0xffff_ffff_ffff_ffff t }
    ensures { result ≡ one_undecided t }
{
    Totals {
        blocks: t.blocks + 1,
        clear: t.clear,
        contact: t.contact,
        undecided: t.undecided + 1,
        refused: t.refused,
    }
}

fn one_refused(t: Totals) -> Totals
    requires { Below 0xffff_ffff_ffff_ffff t }
    ensures { result ≡ one_refused t }
{
    Totals {
        blocks: t.blocks + 1,
        clear: t.clear,
        contact: t.contact,
        undecided: t.undecided,
        refused: t.refused + 1,
    }
}

// S counts as clear; H and O as contact; F is no verdict.
fn one_worked(t: Totals, status: Status) -> Totals
    requires { Below 0xffff_ffff_ffff_ffff t }
    ensures { result ≡ one_worked t status }
{
    match status {
        Status::Overlapped => one_contact(t),
        Status::Hit => one_contact(t),
        Status::Separated => one_clear(t),
        Status::Failed => one_undecided(t),
    }
}

// The totals after an answer.
pub fn counted(t: Totals, answer: BlockAnswer) -> Totals
    requires { Below 0xffff_ffff_ffff_ffff t }
    ensures { result ≡ Sheet.counted t answer }
{
    match answer {
        Ok(worked) => one_worked(t, worked.verdict.status),
        Err(_) => one_refused(t),
    }
}
