//! The numbers of refusals and of refused endings.

use bwtree::answer::{End, Refusal};

#[test]
fn refusals_have_their_numbers(rt: HostRuntime) {
    assert_eq!(rt; u8::from(Refusal::NoSuchSeat), 1);
    assert_eq!(rt; u8::from(Refusal::SeatOpen), 2);
    assert_eq!(rt; u8::from(Refusal::SeatIdle), 3);
    assert_eq!(rt; u8::from(Refusal::WrongSizes), 4);
    assert_eq!(rt; u8::from(Refusal::Impossible), 15);
}

#[test]
fn only_refused_endings_have_numbers(rt: HostRuntime) {
    let others = [
        End::Found,
        End::Missing,
        End::Present,
        End::Stored,
        End::Removed,
        End::Consolidated,
        End::Tidy,
        End::Split,
        End::Small,
    ];
    for end in others {
        assert_eq!(rt; end.number(), None);
    }
    assert_eq!(rt; End::LeafFull.number(), Some(11));
    assert_eq!(rt; End::TooFewRecords.number(), Some(12));
    assert_eq!(rt; End::NoFrame.number(), Some(13));
    assert_eq!(rt; End::NoSlot.number(), Some(14));
}
