// Inks and their counterparts.
use canvas::ink::counterpart;

#[test]
fn counterparts(rt: HostRuntime) {
    assert_eq!(rt; counterpart(0), 0);
    assert_eq!(rt; counterpart(1), 2);
    assert_eq!(rt; counterpart(2), 1);
    assert_eq!(rt; counterpart(3), 4);
    assert_eq!(rt; counterpart(13), 14);
    assert_eq!(rt; counterpart(14), 13);
    assert_eq!(rt; counterpart(15), 15);
    assert_eq!(rt; counterpart(16), 16);
    assert_eq!(rt; counterpart(255), 255);
}
