//! A set of commands in one word: the bit of a command's number stands where the command is in the set.

ghost use Rattle.std.specs.Prelude.{◌≡◌, ◌<◌, ◌≤◌, ◌^◌, length, IfSome, IfNone, None};
ghost use Rattle.rtm_board.specs.Commands.{has, with_one, without_one, no_commands, IsLeast};
ghost use Rattle.rtm_board.specs.View.{commands_for};

fn bit(cmd: u8) -> u64
    requires { cmd < 64 }
    ensures { result ≡ 2 ^ cmd }
{
    1 << cmd
}

/// Whether the command is in the set.
#[tactic(auto, using(crate::proofs::Sets::has_by_shift, crate::proofs::Sets::has_above))]
pub(crate) fn has(set: u64, cmd: u8) -> bool
    ensures { result ≡ has cmd set }
{
    cmd < 64 && set >> cmd & 1 == 1
}

/// The set with the command.
pub(crate) fn with_one(set: u64, cmd: u8) -> u64
    requires { cmd < 64 }
    ensures { result ≡ with_one cmd set }
{
    set | bit(cmd)
}

/// The set without the command.
pub(crate) fn without_one(set: u64, cmd: u8) -> u64
    requires { cmd < 64 }
    ensures { result ≡ without_one cmd set }
{
    set & !bit(cmd)
}

/// The command of the least number.
pub(crate) fn least_command(set: u64) -> Option<u8>
    ensures least { IfSome result (λ cmd. IsLeast set cmd) }
    ensures below { IfSome result (λ cmd. cmd < 64) }
    ensures empty { IfNone result (set ≡ no_commands) }
{
    if set == 0 {
        return None;
    }
    Some(set.trailing_zeros() as u8)
}

/// The commands for that unit, where the list has the unit of each command.
#[tactic(auto, using(crate::proofs::Sets::doubled_fits, crate::proofs::Sets::one_more))]
pub(crate) fn commands_for(targets: &[u16], unit: u16) -> u64
    requires { length targets.now ≤ 64 }
    ensures { result ≡ commands_for unit targets.now }
{
    let mut set = 0;
    let mut left = targets.len();
    'commands: while left > 0 {
        left -= 1;
        let lowest = if targets[left] == unit { 1 } else { 0 };
        set = lowest + 2 * set;
    }
    set
}
