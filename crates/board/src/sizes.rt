// The sizes of a rack: its chips, its FPICs, and the pins of a group.
ghost use Rattle.std.specs.Prelude.{◌≡◌, ◌*◌, ◌↔◌, true, IsTrue, IsOk, IfOk, IfErr};
ghost use Rattle.board.specs.Rows.{in_limits};

use crate::refusal::Refusal;

#[derive(Clone, Copy, PartialEq, Eq, Debug)]
pub struct Sizes {
    chips: u8,
    fpics: u8,
    pins: u8,
    ghost sized: { in_limits chips fpics pins ≡ true },
}

impl Sizes {
    // The sizes, or the refusal where one is outside its limits.
    pub fn new(chips: u32, fpics: u32, pins: u32) -> Result<Sizes, Refusal>
        ensures taken { IsOk result ↔ IsTrue (in_limits chips fpics pins) }
        ensures chips { IfOk result (λ sizes. sizes.chips ≡ chips) }
        ensures fpics { IfOk result (λ sizes. sizes.fpics ≡ fpics) }
        ensures pins { IfOk result (λ sizes. sizes.pins ≡ pins) }
        ensures refused { IfErr result (λ refusal. refusal ≡ Refusal.SizesOutsideLimits) }
    {
        if in_limits(chips, fpics, pins) {
            Ok(Sizes {
                chips: chips as u8,
                fpics: fpics as u8,
                pins: pins as u8,
            })
        } else {
            Err(Refusal::SizesOutsideLimits)
        }
    }

    // 2 chips, 1 FPIC and 1 pin.
    pub(crate) fn smallest() -> Sizes
        ensures chips { result.chips ≡ 2 }
        ensures fpics { result.fpics ≡ 1 }
        ensures pins { result.pins ≡ 1 }
    {
        Sizes {
            chips: 2,
            fpics: 1,
            pins: 1,
        }
    }

    pub fn chips(&self) -> u8
        ensures { result ≡ self.now.chips }
    {
        self.chips
    }

    pub fn fpics(&self) -> u8
        ensures { result ≡ self.now.fpics }
    {
        self.fpics
    }

    pub fn pins(&self) -> u8
        ensures { result ≡ self.now.pins }
    {
        self.pins
    }

    // The most nets that a chip can have, k × m.
    pub(crate) fn limit(&self) -> u32
        ensures { result ≡ self.now.fpics * self.now.pins }
    {
        u32::from(self.fpics) * u32::from(self.pins)
    }
}

// The limits of the sizes.
fn in_limits(chips: u32, fpics: u32, pins: u32) -> bool
    ensures { result ≡ in_limits chips fpics pins }
{
    (2..=32).contains(&chips) && (1..=8).contains(&fpics) && (1..=4).contains(&pins)
}
