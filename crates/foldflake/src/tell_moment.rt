// What holds at one moment of a move, told by a number and by what is written into a lent list.
ghost use Rattle.std.specs.Prelude.{◌≡◌, [], ◌∷◌, length};
ghost use Rattle.foldflake.specs.Moment.{pose_floats, pose_number, pose_after, gap_number, gap_after};

use model::{Pose, Refusal};

fn put_pose(out: &mut [f32], pose: Pose) -> u32
    requires { length out.old ≡ 4 }
    ensures { (result ≡ 32) × (out.new ≡ pose_floats pose) }
{
    out[0] = pose.rotation.c;
    out[1] = pose.rotation.s;
    out[2] = pose.translation.x;
    out[3] = pose.translation.y;
    32
}

fn put_gap(out: &mut [f32], apart: f32) -> u32
    requires { length out.old ≡ 1 }
    ensures { (result ≡ 32) × (out.new ≡ apart ∷ []) }
{
    out[0] = apart;
    32
}

// A refusal writes nothing.
pub fn tell_pose(x: Result<Pose, Refusal>, out: &mut [f32]) -> u32
    requires { length out.old ≡ 4 }
    ensures { (result ≡ pose_number x) × (out.new ≡ pose_after x out.old) }
{
    match x {
        Ok(pose) => put_pose(out, pose),
        Err(refused) => refused.number,
    }
}

pub fn tell_gap(x: Result<f32, Refusal>, out: &mut [f32]) -> u32
    requires { length out.old ≡ 1 }
    ensures { (result ≡ gap_number x) × (out.new ≡ gap_after x out.old) }
{
    match x {
        Ok(apart) => put_gap(out, apart),
        Err(refused) => refused.number,
    }
}
