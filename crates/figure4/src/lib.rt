// Figure 4 of the data sheet: the commands, and what a command code means. What a command does to a chip is `chip`'s.
#![tactic(auto)]

ghost use Rattle.std.specs.Prelude.{◌≡◌};
ghost use Rattle.figure4.specs.Figure4.{figure4, is_reset, reset_or_undefined, all_or_one, load_read, undefined};

// The rows of Figure 4, in its order. A number is the row's B2 B1 B0, M4 to M0, M6 M5, or BY1 BY0 and L2 L1 L0.
#[derive(Clone, Copy)]
pub enum Command {
    Reset,
    ClearIrrAndImr,
    ClearIrrAndImrBit(u8),
    ClearImr,
    ClearImrBit(u8),
    SetImr,
    SetImrBit(u8),
    ClearIrr,
    ClearIrrBit(u8),
    SetIrr,
    SetIrrBit(u8),
    ClearHighestIsr,
    ClearIsr,
    ClearIsrBit(u8),
    LoadMode(u8),
    LoadRead(u8),
    LoadReadAndArm(u8),
    LoadReadAndDisarm(u8),
    PreselectImr,
    PreselectAcr,
    PreselectLevel(u8, u8),
}

// The undefined codes, which are of three kinds: 01 to 0F hex, 1010xx11 binary, and D0 to DF hex.
#[derive(Clone, Copy, Debug, PartialEq, Eq)]
pub enum Undefined {
    Codes01To0F,
    Codes1010xx11,
    CodesD0ToDF,
}

// What a command code means: a row of Figure 4, or nothing.
pub type Meaning = Result<Command, Undefined>;

// The row of a code, by its high hexadecimal digit.
impl TryFrom<u8> for Command {
    type Error = Undefined;

    ghost try_from_gives = { λ code meaning. meaning ≡ figure4 code };

    #[tactic(auto, unfolding(crate::specs::Figure4::figure4))]
    fn try_from(code: u8) -> Meaning {
        let k = code % 8;
        match code / 16 {
            0x0 => reset_or_undefined(code),
            0x1 => all_or_one(code, Command::ClearIrrAndImr, Command::ClearIrrAndImrBit(k)),
            0x2 => all_or_one(code, Command::ClearImr, Command::ClearImrBit(k)),
            0x3 => all_or_one(code, Command::SetImr, Command::SetImrBit(k)),
            0x4 => all_or_one(code, Command::ClearIrr, Command::ClearIrrBit(k)),
            0x5 => all_or_one(code, Command::SetIrr, Command::SetIrrBit(k)),
            0x6 => Ok(Command::ClearHighestIsr),
            0x7 => all_or_one(code, Command::ClearIsr, Command::ClearIsrBit(k)),
            0x8 | 0x9 => Ok(Command::LoadMode(code % 32)),
            0xA => load_read(code / 4 % 4, code % 4),
            0xB => Ok(Command::PreselectImr),
            0xC => Ok(Command::PreselectAcr),
            0xD => Err(Undefined::CodesD0ToDF),
            _ => Ok(Command::PreselectLevel(code / 8 % 4, k)),
        }
    }
}

// Whether a code is the reset's.
pub fn is_reset(code: u8) -> bool
    ensures { result ≡ is_reset code }
{
    code == 0
}

// 00 is the reset; 01 to 0F are undefined.
fn reset_or_undefined(code: u8) -> Meaning
    ensures { result ≡ reset_or_undefined code }
{
    if is_reset(code) {
        Ok(Command::Reset)
    } else {
        Err(Undefined::Codes01To0F)
    }
}

// Bit 3 clear: all channels; set: the one that B2 B1 B0 names.
fn all_or_one(code: u8, all: Command, one: Command) -> Meaning
    ensures { result ≡ all_or_one code all one }
{
    Ok(if bits::is_set(code, 3) { one } else { all })
}

// 1010 M6 M5 and then 00, 01, 10; 11 is undefined.
fn load_read(m: u8, low: u8) -> Meaning
    ensures { result ≡ load_read m low }
{
    match low {
        0 => Ok(Command::LoadRead(m)),
        1 => Ok(Command::LoadReadAndArm(m)),
        2 => Ok(Command::LoadReadAndDisarm(m)),
        _ => Err(Undefined::Codes1010xx11),
    }
}

// Whether the code is in no row of the figure.
pub fn is_undefined(meaning: Meaning) -> bool
    ensures { result ≡ undefined meaning }
{
    meaning.is_err()
}
