// A name of a state. Every place of its part in an area is worked out here and nowhere else.
#![tactic(auto)]

ghost use Rattle.std.specs.Prelude.{◌≡◌, true, ◌+◌, ◌-◌, ◌≤◌, IfOk};
ghost use Rattle.state_rules.specs.Parts.{least_name, valid_name, part_bytes, part_start};
ghost use Rattle.refusals.specs.Number.{refusal_in};
ghost use Rattle.state_part.specs.Numbers.{number_refusal};

use refusals::Refusal;

#[derive(Clone, Copy)]
pub struct Name {
    pub number: u32,
    pub ghost valid: { valid_name number ≡ true },
}

impl Name {
    // 1 and 8 are constants of the name itself.
    pub const LEAST: u32 = 1;

    pub const MOST: u32 = 8;

    // The name with this number.
    #[tactic(auto, using(crate::proofs::Names::name_passes, crate::proofs::Names::name_refused, crate::proofs::Names::name_is))]
    pub fn new(number: u32) -> Result<Name, Refusal>
        ensures refusal { refusal_in result ≡ number_refusal number }
        ensures name { IfOk result (λ name. name.number ≡ number) }
    {
        if number < Name::LEAST || Name::MOST < number {
            return Err(Refusal::BadName);
        }
        Ok(Name { number })
    }

    // The bytes of each part of an area of so many.
    pub fn part_bytes(bytes: usize) -> usize
        ensures { result ≡ part_bytes bytes }
    {
        bytes / Name::MOST as usize
    }

    // The parts before the name's own, as names count from 1.
    fn parts_before(self) -> usize
        ensures { result ≡ self.number - least_name }
    {
        (self.number - Name::LEAST) as usize
    }

    // The place where the name's part begins; the part lies inside the area.
    pub fn part_start(self, bytes: usize) -> usize
        ensures { (result ≡ part_start bytes self.number) × (result + part_bytes bytes ≤ bytes) }
    {
        self.parts_before() * Name::part_bytes(bytes)
    }

    // The place where it ends.
    pub fn part_end(self, bytes: usize) -> usize
        ensures { result ≡ part_start bytes self.number + part_bytes bytes }
    {
        self.part_start(bytes) + Name::part_bytes(bytes)
    }
}
