// The entry of `recovery` for C programs to link.
#![tactic(auto)]

ghost use Rattle.std.specs.Prelude.{◌≡◌};
ghost use Rattle.pie_guarantees.specs.TicksToRecover.{ticks_to_recover};

#[unsafe(no_mangle)]
pub extern "C" fn obikuteru_ticks_to_recover(target: u64) -> u64
    ensures { result ≡ ticks_to_recover target }
{
    recovery::obikuteru_ticks_to_recover(target)
}
