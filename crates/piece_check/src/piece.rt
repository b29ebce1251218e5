// The check of a piece of the way: whatever a search proposes, yes means that the bodies are away from each other at every moment of the piece.
ghost use Rattle.std.specs.Prelude.{true, ◌≡◌};
ghost use Rattle.board.specs.Board.{Fits, ClearBetween};

use crate::apart::four_apart;
use crate::arcs::heading;
use crate::fits::job_fits;
use crate::margins::{arc_at, axis_fits, lengths_fit, margin_of};
use board::{GridJob, Outlines, Proposal, both_within};

fn passes(job: GridJob, k0: u64, k1: u64, p: Proposal, on: Outlines<'_>) -> bool
    requires { Fits job on.a.xs.now on.a.ys.now on.b.xs.now on.b.ys.now }
    ensures { result ≡ true → ClearBetween job k0 k1 on.entry.a.xs.now on.entry.a.ys.now on.entry.b.xs.now on.entry.b.ys.now }
{
    if k1 > 16777216 || k0 >= k1 || !lengths_fit(p) || !axis_fits(p.n0) || !axis_fits(p.n1) {
        return false;
    }
    let arc_a = arc_at(job.a, p.a0, p.a1, k0, k1);
    let Some(e_a) = margin_of(arc_a, p.a0, p.a1, job.a.reach) else {
        return false;
    };
    let arc_b = arc_at(job.b, p.b0, p.b1, k0, k1);
    let Some(e_b) = margin_of(arc_b, p.b0, p.b1, job.b.reach) else {
        return false;
    };
    let start = heading(job.d1, job.d2, k0);
    let end = heading(job.d1, job.d2, k1);
    if !both_within(start, 536870912) || !both_within(end, 536870912) {
        return false;
    }
    let k = 268435456 * (job.up + e_a + e_b + 28);
    four_apart(p.n0, p.n1, arc_a, arc_b, start, end, k, on)
}

// From k0 / 2^24 of the way to k1 / 2^24 of it. The lists have the corners.
pub fn clear_piece(job: GridJob, k0: u64, k1: u64, p: Proposal, on: Outlines<'_>) -> bool
    ensures { result ≡ true → ClearBetween job k0 k1 on.entry.a.xs.now on.entry.a.ys.now on.entry.b.xs.now on.entry.b.ys.now }
{
    job_fits(job, on) && passes(job, k0, k1, p, on)
}
