// The numbers of the refusals.
use lattice::refused::LatticeRefused;
use layers::refused::LayerRefused;
use plane::fold::FoldRefused;

#[test]
fn numbers(rt: HostRuntime) {
    assert_eq!(rt; FoldRefused::OffSpan.number(), 2);
    assert_eq!(rt; LatticeRefused::Parallel.number(), 13);
    assert_eq!(rt; LatticeRefused::TooLong.number(), 14);
    assert_eq!(rt; LayerRefused::AgainstRules.number(), 15);
    assert_eq!(rt; LayerRefused::NoRoom.number(), 16);
}
