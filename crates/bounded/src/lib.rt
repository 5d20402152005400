// Lists that never want for memory.
#![tactic(auto)]

mod methods;

use std::marker::Model;

// At most N elements. Room for all of them is made at first, so adding one never fails for memory.
#[derive(Drop)]
pub struct Bounded<T, const N: usize> {
    items: Vec<T>,
}

// Clauses see the elements.
impl<T, const N: usize> Model for Bounded<T, N> {
    ghost use Rattle.std.specs.Prelude.{◌≤◌, List, vec_len, vec_capacity};

    ghost Value = { List T };

    ghost view = { λ b. b.items.items };

    ghost invariant = { λ b. (vec_len b.items ≤ N) × (N ≤ vec_capacity b.items) };
}

#[cfg(test)]
mod tests {
    use super::*;
    use std::test::Fail;

    #[test]
    fn takes_as_many_as_it_has_room_for(rt: HostRuntime) -> Result<(), Fail> {
        let mut list: Bounded<u8, 2> = Bounded::new(rt.alloc())?;
        assert_eq!(rt; list.push(5), Ok(()));
        assert_eq!(rt; list.push(6), Ok(()));
        assert_eq!(rt; list.push(7), Err(7));
        assert_eq!(rt; list.remove(0), Some(5));
        assert_eq!(rt; list.remove(1), None);
        assert_eq!(rt; list.push(8), Ok(()));
        list.retain(|number| *number > 6);
        assert_eq!(rt; list.as_slice(), [8].as_slice());
        Ok(())
    }
}
