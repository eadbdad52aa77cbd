// The priority searches of one chip: the order in force, the candidate, and "clear highest". Each is one look for the first set channel.
// No search asks anything of its caller: a pointer above 7 counts modulo 8 here, and is refused where the rules paper refuses it.
#![tactic(auto)]

ghost use Rattle.std.specs.Prelude.{◌≡◌};
ghost use Rattle.search.specs.Order.{last_of};
ghost use Rattle.search.specs.Candidate.{candidate, exists, channel_of, candidate_number};
ghost use Rattle.search.specs.Clear.{clear_highest};

// The channel that ends the order in force.
fn last_of(mode: u8, pointer: u8) -> u8
    ensures { result ≡ last_of mode pointer }
{
    if bits::is_set(mode, 0) { pointer } else { 7 }
}

// The candidate of a chip with these registers: the first channel that waits or is in service, unless it is in service.
// Five registers and no struct of them: a caller in C has them apart (am9519a_candidate), and a chip has them among others.
#[tactic(auto, using(crate::proofs::Order::candidate_by_lem), unfolding(crate::specs::Candidate::candidate))]
pub fn candidate_of(irr: u8, imr: u8, isr: u8, mode: u8, pointer: u8) -> Option<u8>
    ensures { result ≡ candidate irr imr isr mode pointer }
{
    if !bits::is_set(mode, 7) {
        return None;
    }
    let last = last_of(mode, pointer);
    let waiting = irr & !imr;
    let first = order::first_channel(last, waiting | isr)?;
    (!bits::is_set(isr, first)).then_some(first)
}

// ISR after "clear highest priority ISR bit", by the order in force. An empty ISR has no first bit, and stays.
#[tactic(auto, using(crate::proofs::Order::clear_first_lem), unfolding(crate::specs::Clear::clear_highest))]
pub fn clear_highest(isr: u8, mode: u8, pointer: u8) -> u8
    ensures { result ≡ clear_highest isr mode pointer }
{
    let last = last_of(mode, pointer);
    match order::first_channel(last, isr) {
        Some(first) => bits::without_bit(isr, first),
        None => isr,
    }
}

// A candidate exists.
pub fn exists(candidate: Option<u8>) -> bool
    ensures { result ≡ exists candidate }
{
    candidate.is_some()
}

// The candidate's channel, 0 if none.
pub fn channel_of(candidate: Option<u8>) -> u8
    ensures { result ≡ channel_of candidate }
{
    candidate.unwrap_or(0)
}

// The candidate's channel, or 255 for no candidate.
pub fn candidate_number(candidate: Option<u8>) -> u8
    ensures { result ≡ candidate_number candidate }
{
    candidate.unwrap_or(255)
}
