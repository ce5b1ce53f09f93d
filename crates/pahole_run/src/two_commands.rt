//! The law of the two commands. The function does nothing: its contract is the law.
ghost use Rattle.pahole_run.specs.TwoCommands.{StoredIsReadAgain, StoredIsShownAlike};

/// What an encoding run stored, read by `-F btf` over the same base, is accepted and has the same
/// types. So where pointers have the same width, both commands show the same text, or refuse for
/// the same reason.
pub fn two_commands_agree()
    ensures types { StoredIsReadAgain }
    ensures shown { StoredIsShownAlike }
{}
