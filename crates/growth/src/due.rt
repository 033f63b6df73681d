// Words that are due: those whose entry is still to be sent on to where the word goes. While a table grows, a due word has 8 more
// in its status byte. All that tells or changes that stands here.
ghost use Rattle.std.specs.Prelude.{◌≡◌, ℕ, ◌%◌, ◌<◌, ◌≤◌, Decides, length, slice_index, slice_set};
ghost use Rattle.growth.specs.Memory.{due_status};

use flow::Status;

// The status of a word that is due.
pub(crate) fn due(left: bool, right: bool) -> Status
    ensures { result.0 ≡ due_status left right }
{
    Status(9 + 2 * left as u8 + 4 * right as u8)
}

pub(crate) fn is_due(status: Status) -> bool
    ensures { Decides result (8 ≤ status.0) }
{
    status.0 >= 8
}

// The status of a word that is due no more.
fn settled(status: Status) -> Status
    ensures { result.0 ≡ status.0 % 8 }
{
    Status(status.0 % 8)
}

// Takes up the word p, which is then due no more.
pub(crate) fn take_up(status: &mut [u8], p: usize)
    requires { p < length status.old }
    ensures { status.new ≡ slice_set status.old p (slice_index status.old p % 8) }
{
    status[p] = settled(Status(status[p])).0;
}
