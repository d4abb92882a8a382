// The texts of reports.
use crate::fixture::{Found, report_of};
use file_table::Table;
use ldso_conf::ConfKind;
use lib_types::{Abi, Analysis, Defect, NoMemory, Text, Texts};
use std::alloc::Global;
use std::test::Fail;
use update_report::{Skips, skips};

const CONF_KINDS: &[Found<'_>] = &[
    Found::Conf("/etc/d", ConfKind::NotFile),
    Found::Conf("//etc/x", ConfKind::Repeated),
    Found::Conf("/deep", ConfKind::TooDeep),
    Found::Conf("/large", ConfKind::TooLarge),
    Found::Conf("rel/", ConfKind::Relative),
    Found::Conf("", ConfKind::Equals),
    Found::Conf("/etc/ld.so.conf", ConfKind::Hwcap),
    Found::Conf("/long", ConfKind::LongPath),
];

const CONF_LINES: &str =
    "conf: /etc/d: NotFile\nconf: //etc/x: Repeated\nconf: /deep: TooDeep\nconf: /large: TooLarge\nconf: rel/: Relative\nconf: : Equals\nconf: /etc/ld.so.conf: Hwcap\nconf: /long: LongPath\n0 libs, 0 links, 1 files opened\n";

const DEFECTS: &[Found<'_>] = &[
    Found::Skip("/lib/a", Defect::NotElf),
    Found::Skip("/lib/b", Defect::TooShort { length: 10 }),
    Found::Skip("/lib/c", Defect::BadClass { value: 0 }),
    Found::Skip("/lib/d", Defect::BadData { value: 2 }),
    Found::Skip("/lib/e", Defect::BadMachine { number: 40 }),
    Found::Skip("/lib/f", Defect::NotShared { etype: 2 }),
    Found::Skip("/lib/g", Defect::BadPhdrs),
    Found::Skip("/lib/h", Defect::NoDynamic),
    Found::Skip("/lib/i", Defect::DynOutside),
    Found::Skip("/lib/j", Defect::NoStrtab),
    Found::Skip("/lib/k", Defect::OutsideLoad),
    Found::Skip("/lib/l", Defect::BadString { tag: 29 }),
    Found::Skip("/lib/m", Defect::BadSoname),
];

const DEFECT_LINES: &str =
    "skip: /lib/a: NotElf\nskip: /lib/b: TooShort 10\nskip: /lib/c: BadClass 0\nskip: /lib/d: BadData 2\nskip: /lib/e: BadMachine 40\nskip: /lib/f: NotShared 2\nskip: /lib/g: BadPhdrs\nskip: /lib/h: NoDynamic\nskip: /lib/i: DynOutside\nskip: /lib/j: NoStrtab\nskip: /lib/k: OutsideLoad\nskip: /lib/l: BadString 29\nskip: /lib/m: BadSoname\n0 libs, 0 links, 13 files opened\n";

// Each kind of line, found in another order than that of the report. The root is a search directory, and no search directory has the index
// 9.
const EACH_LINE: &[Found<'_>] = &[
    Found::Entry("libx.so.1"),
    Found::Entry("libx.so.01"),
    Found::Dangling("/usr/lib/libd.so"),
    Found::Skip("/usr/lib/libs.so", Defect::NotElf),
    Found::Place("/usr/lib"),
    Found::Place("/"),
    Found::Mixed(1, "libm.so.1"),
    Found::Blocked(0, "libb.so.1"),
    Found::Blocked(9, "libb.so.2"),
    Found::Link(1, "libl.so.1", "libl.so.1.2"),
    Found::Link(0, "libl.so.1", "libl.so.1.3"),
    Found::Absent("/opt/lib"),
    Found::Conf("rel", ConfKind::Relative),
];

const LINES: &str =
    "conf: rel: Relative\nconf: /opt/lib: Absent\nlink: /libl.so.1 -> libl.so.1.2\nlink: /usr/lib/libl.so.1 -> libl.so.1.3\nblocked: /usr/lib/libb.so.1\nblocked: /libb.so.2\nmixed: / libm.so.1\nskip: /usr/lib/libs.so: NotElf\ndangling: /usr/lib/libd.so\ntwin: libx.so.1 libx.so.01\n2 libs, 2 links, 7 files opened\n";

const TWO_LINES: &[Found<'_>] = &[
    Found::Dangling("/usr/lib/libd.so"),
    Found::Absent("/opt/lib"),
];

// Several entries with one soname don't hide a twin or repeat it. Three sonames in a row are two pairs.
const TWINS: &[Found<'_>] = &[
    Found::Entry("libx.so.2"),
    Found::Entry("libx.so.1"),
    Found::Entry("libx.so.1"),
    Found::Entry("libx.so.01"),
    Found::Entry("libx.so.01"),
    Found::Entry("libx.so.001"),
    Found::Entry("libw.so.01"),
    Found::Entry("libv.so.1"),
    Found::Entry("libw.so.1"),
];

const TWIN_LINES: &str =
    "twin: libx.so.1 libx.so.01\ntwin: libx.so.01 libx.so.001\n9 libs, 0 links, 9 files opened\n";

const FIRST_DAMAGED: &str =
    "aux: Damaged 0\nconf: /opt/lib: Absent\ndangling: /usr/lib/libd.so\n0 libs, 0 links, 3 files opened\n";

const LAST_DAMAGED: &str = "aux: Damaged 18446744073709551615\n0 libs, 0 links, 0 files opened\n";

// The offset at which the auxiliary cache is malformed, findings, the number of opened files, and the report.
const REPORTS: &[(Option<u64>, &[Found<'_>], usize, &str)] = &[
    (None, &[], 0, "0 libs, 0 links, 0 files opened\n"),
    (None, CONF_KINDS, 1, CONF_LINES),
    (None, DEFECTS, 13, DEFECT_LINES),
    (None, EACH_LINE, 7, LINES),
    (None, TWINS, 9, TWIN_LINES),
    (Some(0), TWO_LINES, 3, FIRST_DAMAGED),
    (Some(u64::MAX), &[], 0, LAST_DAMAGED),
];

fn is_report(
    alloc: Global,
    damaged: Option<u64>,
    findings: &[Found<'_>],
    opened: usize,
    want: &str,
) -> Result<bool, Fail> {
    let text = report_of(alloc, damaged, findings, opened)?;
    Ok(text.as_bytes() == want.as_bytes())
}

#[test]
fn reports(rt: HostRuntime) -> Result<(), Fail> {
    for (damaged, findings, opened, want) in REPORTS {
        assert!(rt;
            is_report(rt.alloc(), *damaged, *findings, *opened, want)?,
            "{want}"
        );
    }
    Ok(())
}

fn text(alloc: Global, text: &str) -> Result<Text, NoMemory> {
    Text::copy_of(alloc, text.as_bytes())
}

// Two files that are not libraries, and a library between them.
fn table(alloc: Global) -> Result<Table, Fail> {
    let mut table = Table::new(alloc);
    let library = Analysis::Lib {
        abi: Abi::I386,
        soname: None,
    };
    table.insert(text(alloc, "/lib/b")?, library)?;
    let short = Analysis::Not(Defect::TooShort { length: 3 });
    table.insert(text(alloc, "/lib/c")?, short)?;
    table.insert(text(alloc, "/lib/a")?, Analysis::Not(Defect::NotElf))?;
    Ok(table)
}

// The files of the table, and one more.
fn files(alloc: Global) -> Result<Texts, NoMemory> {
    let mut files = Texts::new(alloc);
    for path in ["/lib/a", "/lib/b", "/lib/c", "/lib/d"] {
        files.push(text(alloc, path)?)?;
    }
    Ok(files)
}

const SKIPPED: &[(&str, Defect)] = &[
    ("/lib/a", Defect::NotElf),
    ("/lib/c", Defect::TooShort { length: 3 }),
];

fn are_skipped(found: &Skips, want: &[(&str, Defect)]) -> bool {
    let mut left = want;
    for skipped in found.as_slice() {
        if left.is_empty()
            || skipped.path.as_bytes() != left[0].0.as_bytes()
            || skipped.defect != left[0].1
        {
            return false;
        }
        left = &left[1..];
    }
    left.is_empty()
}

#[test]
fn files_that_are_no_libraries(rt: HostRuntime) -> Result<(), Fail> {
    let alloc = rt.alloc();
    let found = skips(alloc, &table(alloc)?, &files(alloc)?)?;
    assert!(rt; are_skipped(&found, SKIPPED));
    Ok(())
}
