// The bytes of pointers, spelled out.
use eps_pointers::{Eps, Ile, list_key, read_eps, read_ile, write_eps, write_ile};
use hal_base::Ilk;

const NAME: Ilk = Ilk {
    addr: 0x0001_0210,
    part: 2,
    number: 0x0103,
};

#[test]
fn a_pointer_is_partition_number_address_and_name(rt: HostRuntime) {
    let eps = Eps {
        part: 7,
        number: 0xfffe,
        addr: 0xffff_0ff0,
        ilk: NAME,
    };
    let bytes = write_eps(eps);
    assert_eq!(rt;
        bytes,
        [0, 7, 255, 254, 255, 255, 15, 240, 0, 1, 2, 16, 0, 2, 1, 3]
    );
    assert_eq!(rt; read_eps(&bytes), eps);
}

#[test]
fn an_entry_is_address_and_number_under_name_and_code(rt: HostRuntime) {
    let ile = Ile {
        addr: 0x0203_0405,
        number: 6,
    };
    let bytes = write_ile(ile);
    assert_eq!(rt; bytes, [2, 3, 4, 5, 0, 6]);
    assert_eq!(rt; read_ile(&bytes), ile);
    assert_eq!(rt; list_key(NAME, 255), [0, 1, 2, 16, 0, 2, 1, 3, 255]);
}
