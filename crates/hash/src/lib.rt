// The flow of a packet: the Jenkins one-at-a-time hash of its key, plus a salt, modulo 64.
#![tactic(auto)]

ghost use Rattle.std.specs.Prelude.{◌≡◌, ◌<◌};
ghost use Rattle.hash.specs.OneAtATime.{absorb, finish, flow_of, one_at_a_time};

// One byte taken into the hash.
#[tactic(auto, unfolding(crate::specs::OneAtATime::absorb))]
fn mix(h: u32, byte: u8) -> u32
    ensures { result ≡ absorb h byte }
{
    let a = h.wrapping_add(u32::from(byte));
    let b = a.wrapping_add(a << 10);
    b ^ (b >> 6)
}

// What is done after the last byte.
#[tactic(auto, unfolding(crate::specs::OneAtATime::finish))]
fn last(h: u32) -> u32
    ensures { result ≡ finish h }
{
    let a = h.wrapping_add(h << 3);
    let b = a ^ (a >> 11);
    b.wrapping_add(b << 15)
}

#[tactic(auto, unfolding(crate::specs::OneAtATime::one_at_a_time, crate::specs::OneAtATime::absorb_all))]
pub fn one_at_a_time(key: &[u8]) -> u32
    ensures { result ≡ one_at_a_time key.now }
{
    let mut h = 0;
    for byte in key {
        h = mix(h, *byte);
    }
    last(h)
}

// The flow, 0 to 63.
#[tactic(auto, unfolding(crate::specs::OneAtATime::flow_of))]
pub fn flow_of(key: &[u8; 13], salt: u32) -> u32
    ensures { (result ≡ flow_of key.now salt) × (result < 64) }
{
    one_at_a_time(key).wrapping_add(salt) % 64
}
