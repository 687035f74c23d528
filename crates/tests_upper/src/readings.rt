//! What a bench shows to a Rust caller: the example of vsm_bench's README.

use std::process::Abort;
use std::test::Fail;
use vsm_bench::{
    Bench, Boundary, DEFAULT_SETTINGS, Family, Form, Length, Location, Reply, Statement, Value,
};

#[test]
fn a_bench_is_read(rt: HostRuntime) -> Result<(), Fail> {
    let Ok(mut bench) = Bench::new(rt.alloc(), DEFAULT_SETTINGS) else {
        return Err(Fail::from(std::alloc::AllocError));
    };
    let obtain = Statement::Obtain {
        length: Length::Fixed(Value::Number(16)),
        subpool: Value::Number(5),
        place: None,
        boundary: Boundary::Doubleword,
        location: Location::Low,
        form: Form {
            family: Family::S,
            conditional: false,
        },
    };
    assert!(rt; obtain.valid());
    let obtained = Reply::Obtained {
        address: 0x6000,
        length: 16,
    };
    assert!(rt; bench.apply(&obtain) == Ok(obtained));
    // Register 1 of task 1 holds the address. The page belongs to subpool 5, which task 1 owns. The bytes are zeros.
    let address = bench.register(bench.storage().current(), 1);
    assert_eq!(rt; address, 0x6000);
    let Some(subpool) = bench.storage().subpool_of_page(address / 4096) else {
        return Err(Fail::from(std::alloc::AllocError));
    };
    assert_eq!(rt; (subpool.number, subpool.owner), (5, 1));
    let mut bytes = [1; 4];
    assert!(rt; bench.storage().load(address, &mut bytes).is_ok());
    assert_eq!(rt; bytes, [0; 4]);
    Ok(())
}
