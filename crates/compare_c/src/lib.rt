// The entry of `compare` for C programs to link.
#![tactic(auto)]

ghost use Rattle.std.specs.Prelude.{◌≡◌};
ghost use Rattle.compare.specs.Compare.{compare};
ghost use Rattle.compare.specs.Codes.{code_of, words_of};

#[unsafe(no_mangle)]
pub extern "C" fn obikuteru_compare(first: &[u8], second: &[u8], words: &mut [u64; 4]) -> u32
    ensures { let a = compare first.now second.now in
        (result ≡ code_of a) × (words.new ≡ words_of first.now second.now a) }
{
    compare::obikuteru_compare(first, second, words)
}
