// The ABI of a file: its machine, its class and its e_flags.
use super::rows::{changed, gives, libz};
use lib_types::{Abi, Defect};
use std::alloc::Global;
use std::process::Abort;
use std::test::Fail;

// e_machine, its bytes, the bytes of e_flags, and the ABI. Without an ABI the file has the defect BadMachine.
type Row = (u64, &'static [u8], &'static [u8], Option<Abi>);

const CLASS_1: &[Row] = &[
    (3, &[3, 0], &[0, 0, 0, 0], Some(Abi::I386)),
    (3, &[3, 0], &[255, 255, 255, 255], Some(Abi::I386)),
    (62, &[62, 0], &[0, 0, 0, 0], Some(Abi::X32)),
    (62, &[62, 0], &[255, 255, 255, 255], Some(Abi::X32)),
    (183, &[183, 0], &[0, 0, 0, 0], None),
    // hard-float of EABI 5, soft-float, both bits, none
    (40, &[40, 0], &[0, 4, 0, 5], Some(Abi::ArmHf)),
    (40, &[40, 0], &[0, 2, 0, 5], None),
    (40, &[40, 0], &[0, 6, 0, 5], Some(Abi::ArmHf)),
    (40, &[40, 0], &[0, 0, 0, 5], None),
    // other versions of the EABI
    (40, &[40, 0], &[0, 4, 0, 4], Some(Abi::ArmHf)),
    (40, &[40, 0], &[0, 4, 0, 0], Some(Abi::ArmHf)),
    (40, &[40, 0], &[255, 255, 255, 255], Some(Abi::ArmHf)),
    (40, &[40, 0], &[255, 251, 255, 255], None),
    (296, &[40, 1], &[0, 4, 0, 5], None),
    (243, &[243, 0], &[4, 0, 0, 0], None),
    (243, &[243, 0], &[5, 0, 0, 0], None),
];

const CLASS_2: &[Row] = &[
    (62, &[62, 0], &[0, 0, 0, 0], Some(Abi::X86_64)),
    (62, &[62, 0], &[255, 255, 255, 255], Some(Abi::X86_64)),
    (183, &[183, 0], &[0, 0, 0, 0], Some(Abi::Aarch64)),
    (183, &[183, 0], &[255, 255, 255, 255], Some(Abi::Aarch64)),
    (3, &[3, 0], &[0, 0, 0, 0], None),
    (40, &[40, 0], &[0, 4, 0, 5], None),
    // soft, single, double and quad float, each without and with compressed instructions
    (243, &[243, 0], &[0, 0, 0, 0], None),
    (243, &[243, 0], &[1, 0, 0, 0], None),
    (243, &[243, 0], &[2, 0, 0, 0], None),
    (243, &[243, 0], &[3, 0, 0, 0], None),
    (243, &[243, 0], &[4, 0, 0, 0], Some(Abi::Riscv64D)),
    (243, &[243, 0], &[5, 0, 0, 0], Some(Abi::Riscv64D)),
    (243, &[243, 0], &[6, 0, 0, 0], None),
    (243, &[243, 0], &[7, 0, 0, 0], None),
    // double float with RVE, with TSO, and with all other bits
    (243, &[243, 0], &[12, 0, 0, 0], Some(Abi::Riscv64D)),
    (243, &[243, 0], &[20, 0, 0, 0], Some(Abi::Riscv64D)),
    (243, &[243, 0], &[253, 255, 255, 255], Some(Abi::Riscv64D)),
    (243, &[243, 0], &[251, 255, 255, 255], None),
    (499, &[243, 1], &[5, 0, 0, 0], None),
];

// The library of `base` with its machine changed, and with four bytes at an offset changed.
fn check(rt: &impl Abort, alloc: Global, base: Abi, at: usize, rows: &[Row]) -> Result<(), Fail> {
    for (number, machine, eflags, abi) in rows {
        let bytes = changed(alloc, &libz(alloc, base)?, &[(18, *machine), (at, *eflags)])?;
        let want = match abi {
            Some(_) => None,
            None => Some(Defect::BadMachine { number: *number }),
        };
        assert!(rt;
            gives(alloc, bytes, abi.unwrap_or(base), want)?,
            "{number} {eflags:?}"
        );
    }
    Ok(())
}

#[test]
fn machine_class_and_flags_give_the_abi(rt: HostRuntime) -> Result<(), Fail> {
    let alloc = rt.alloc();
    check(&rt, alloc, Abi::I386, 36, CLASS_1)?;
    check(&rt, alloc, Abi::X86_64, 48, CLASS_2)
}

// The flags of each class at the offset of the other class: e_flags is 0.
const ELSEWHERE_1: &[Row] = &[(40, &[40, 0], &[0, 4, 0, 5], None)];

const ELSEWHERE_2: &[Row] = &[(243, &[243, 0], &[4, 0, 0, 0], None)];

#[test]
fn the_flags_of_the_other_class_do_not_count(rt: HostRuntime) -> Result<(), Fail> {
    let alloc = rt.alloc();
    check(&rt, alloc, Abi::I386, 48, ELSEWHERE_1)?;
    check(&rt, alloc, Abi::X86_64, 36, ELSEWHERE_2)
}
