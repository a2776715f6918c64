// The pairs that a line's numbers spell, after the words of the answer buffer and the record: composite, component, and so on.
// One number alone is a count: so many pairs of a record and the one before it, from record 2 on. A composite that is left over has no component.
use crate::script::{Numbers, counted};
use loc_lent::{first, rest};

// How many have a composite, and how many have both.
#[derive(Clone, Copy)]
pub struct Pairs {
    composites: [u64; 1030],
    components: [u64; 1030],
    pairs: usize,
    whole: usize,
}

impl Pairs {
    pub fn of(numbers: &Numbers) -> Self {
        let mut pairs = Pairs {
            composites: [0; 1030],
            components: [0; 1030],
            pairs: numbers.count().saturating_sub(1) / 2,
            whole: (numbers.count() / 2).saturating_sub(1),
        };
        if numbers.count() == 3 {
            pairs.count_up(counted(numbers.at(2)) as usize);
        } else {
            pairs.spell(rest(numbers.held(), 2));
        }
        pairs
    }

    fn count_up(&mut self, n: usize) {
        for (i, (composite, component)) in self
            .composites
            .iter_mut()
            .zip(self.components.iter_mut())
            .enumerate()
        {
            *composite = i as u64 + 2;
            *component = i as u64 + 1;
        }
        self.pairs = n;
        self.whole = n;
    }

    fn spell(&mut self, numbers: &[u64]) {
        for (to, composite) in self.composites.iter_mut().zip(numbers.iter().step_by(2)) {
            *to = *composite;
        }
        for (to, component) in self
            .components
            .iter_mut()
            .zip(numbers.iter().skip(1).step_by(2))
        {
            *to = *component;
        }
    }

    pub fn composites(&self) -> &[u64] {
        first(&self.composites, self.pairs)
    }

    pub fn components(&self) -> &[u64] {
        first(&self.components, self.whole)
    }
}
