// A build, told by a number.
ghost use Rattle.std.specs.Prelude.{◌≡◌};
ghost use Rattle.foldflake.specs.Entry.{built_number};

use model::Refusal;

// 32, or the number of its refusal.
pub fn built_number(x: Result<usize, Refusal>) -> u32
    ensures { result ≡ built_number x }
{
    match x {
        Ok(_) => 32,
        Err(refused) => refused.number,
    }
}
