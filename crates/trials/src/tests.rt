use crate::range::is_right;
use crate::shuffle::Shuffle;
use crate::trial::{Outcome, Trial, run};
use keys::refusal::Refusal;
use std::test::Fail;

// Takes the even numbers, as long as there is room, and is wrong of each arrival.
#[derive(Drop)]
struct Wrong {
    room: u32,
}

impl Trial for Wrong {
    type Arrival = u32;

    ghost vouches = { λ s xs. ⊥ };

    fn arrival(number: u32) -> Option<u32> {
        (number % 2 == 0).then_some(number)
    }

    fn note(&mut self, _arrival: u32) -> Result<(), Refusal> {
        self.room = self.room.checked_sub(1).ok_or(Refusal::RunFull)?;
        Ok(())
    }

    fn count_wrong(&self, history: &[u32]) -> u32 {
        u32::try_from(history.len()).unwrap_or(u32::MAX)
    }
}

#[test]
fn every_second_number_is_even(rt: HostRuntime) -> Result<(), Fail> {
    let mut roomy = Wrong { room: 9 };
    let outcome = run(&mut roomy, 7, 4, rt.alloc())?;
    let want = Outcome {
        arrivals: 2,
        wrong: 6,
    };
    assert_eq!(rt; outcome, want);
    let told = outcome.to_string(rt.alloc())?;
    assert_eq!(rt; told.as_str(), "2 arrivals, 6 answers wrong");
    let mut small = Wrong { room: 1 };
    let outcome = run(&mut small, 7, 4, rt.alloc())?;
    assert_eq!(rt; outcome.arrivals, 1);
    assert_eq!(rt; outcome.wrong, 4);
    Ok(())
}

#[test]
fn ranges_are_compared(rt: HostRuntime) {
    assert!(rt; is_right((2, 4), 2, 2) && is_right((2, 4), 4, 2));
    assert!(rt; !is_right((2, 4), 1, 2) && !is_right((2, 4), 5, 2));
    assert!(rt; !is_right((2, 4), 3, 1));
    assert!(rt; Shuffle::new(0).next() == Some(1013904223));
}
