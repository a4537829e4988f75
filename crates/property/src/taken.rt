// A property table that is taken: whoever holds one needs no check.
ghost use Rattle.std.specs.Prelude.{◌≡◌, true, false, MatchResult};
ghost use Rattle.document.specs.Property.{in_range};
ghost use Rattle.refusals.specs.declared.Refusal.TheVariants.{BadProperty};
ghost use Rattle.property.specs.Meaning.{meaning, Within};

use crate::Property;
use refusals::Refusal;

#[derive(Clone, Copy)]
pub struct Taken {
    pub property: Property,
    pub ghost in_range: { in_range (meaning property) ≡ true },
    pub ghost within: { Within property.next property.events property.states },
}

impl Property {
    // The table, as one that is taken; refused 11 where it is not within its ranges.
    #[tactic(auto, using(crate::specs::RangeLaws::in_range_within))]
    #[inline(always)]
    pub fn taken(self) -> Result<Taken, Refusal>
        ensures { MatchResult result (λ t. t.property ≡ self) (λ e. (e ≡ BadProperty) × (in_range (meaning self) ≡ false)) }
    {
        if crate::in_range(self) {
            Ok(Taken { property: self })
        } else {
            Err(Refusal::BadProperty)
        }
    }
}
