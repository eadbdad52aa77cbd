// The C interface as a static library: each export has the name and the contract of its function in the crate am9519a, and only calls it.
// include/am9519a.h declares them.
#![tactic(auto)]

ghost use Rattle.std.specs.Prelude.{◌≡◌};
ghost use Rattle.search.specs.Candidate.{search_number};
ghost use Rattle.am9519a.specs.Calls.{start_call, run_left, run_call, registers_call, pins_call, meaning_call};

// The candidate search over register numbers: the channel, 255 for no candidate, or 254 if the pointer is above 7.
#[unsafe(no_mangle)]
pub extern "C" fn am9519a_candidate(irr: u8, imr: u8, isr: u8, mode: u8, pointer: u8) -> u8
    ensures { result ≡ search_number irr imr isr mode pointer }
{
    am9519a::am9519a_candidate(irr, imr, isr, mode, pointer)
}

// The chain at the start, into an image.
#[unsafe(no_mangle)]
pub extern "C" fn am9519a_start(count: u8, fill: u8, image: &mut [u8]) -> u8
    ensures value { result ≡ (start_call count fill image.old).number }
    ensures image_after { image.new ≡ (start_call count fill image.old).buffer }
{
    am9519a::am9519a_start(count, fill, image)
}

// A run over a list of events, four bytes each, up to a limit.
#[unsafe(no_mangle)]
pub extern "C" fn am9519a_run(
    image: &mut [u8],
    events: &[u8],
    limit: usize,
    results: &mut [u8],
    accepted: &mut usize,
) -> u8
    ensures { run_left result image.new results.new accepted.new
        ≡ run_call image.old events.now limit results.old accepted.old }
{
    am9519a::am9519a_run(image, events, limit, results, accepted)
}

// The register view of a chip.
#[unsafe(no_mangle)]
pub extern "C" fn am9519a_registers(image: &[u8], chip: u8, view: &mut [u8]) -> u8
    ensures value { result ≡ (registers_call image.now chip view.old).number }
    ensures view_after { view.new ≡ (registers_call image.now chip view.old).buffer }
{
    am9519a::am9519a_registers(image, chip, view)
}

// The pin view of a chip.
#[unsafe(no_mangle)]
pub extern "C" fn am9519a_pins(image: &[u8], chip: u8, view: &mut [u8]) -> u8
    ensures value { result ≡ (pins_call image.now chip view.old).number }
    ensures view_after { view.new ≡ (pins_call image.now chip view.old).buffer }
{
    am9519a::am9519a_pins(image, chip, view)
}

// What a number says to people, as far as there is room for it. Hands back how long all of it is.
#[unsafe(no_mangle)]
pub extern "C" fn am9519a_meaning(number: u8, text: &mut [u8]) -> usize
    ensures value { result ≡ (meaning_call number text.old).number }
    ensures text_after { text.new ≡ (meaning_call number text.old).buffer }
{
    am9519a::am9519a_meaning(number, text)
}
