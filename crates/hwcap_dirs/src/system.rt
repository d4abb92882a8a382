//! The directories that are searched after those of the conf file.
ghost use Rattle.std.specs.Prelude.{◌≡◌, ◌∷◌, [], drop, MatchOption};
ghost use Rattle.lib_types.specs.Abi.{row_of};
ghost use Rattle.hwcap_dirs.specs.Places.{all_builtin_dirs, builtin_dirs, system_dirs};

use crate::kinds::Scope;
use lib_types::Abi;

/// The number of directories that the loader searches by default.
pub const SYSTEM_DIRS: usize = 4;

/// Of the directories that the loader searches by default, the one after the first `done`, and how many there are up to it.
pub fn next_system_dir(done: usize) -> Option<(&'static [u8], usize)>
    ensures { MatchOption result (drop done system_dirs ≡ []) (λ r. drop done system_dirs ≡ r.0.now ∷ drop r.1 system_dirs) }
{
    match done {
        0 => Some((b"/lib", 1)),
        1 => Some((b"/usr/lib", 2)),
        2 => Some((b"/lib64", 3)),
        3 => Some((b"/usr/lib64", SYSTEM_DIRS)),
        _ => None,
    }
}

/// Of the directories that are searched after those of the conf file, the one after the first `done`, and how many there are
/// up to it.
pub fn next_builtin_dir(scope: &Scope, done: usize) -> Option<(&'static [u8], usize)>
    ensures { MatchOption result (drop done (builtin_dirs scope.now) ≡ []) (λ r. drop done (builtin_dirs scope.now) ≡ r.0.now ∷ drop r.1 (builtin_dirs scope.now)) }
{
    match scope {
        Scope::Image => next_system_dir(done),
        Scope::Root { .. } => next_dir_of_root(done),
        Scope::Only { .. } => None,
    }
}

// Debian's directory of an ABI in `/lib`.
fn lib_of(abi: Abi) -> &'static [u8]
    ensures { result.now ≡ drop 4 (row_of abi).usr_lib }
{
    &abi.row().usr_lib[4..]
}

// The same for the directory of an image: the loader's directories, followed by Debian's and those of RISC-V's loader.
fn next_dir_of_root(done: usize) -> Option<(&'static [u8], usize)>
    ensures { MatchOption result (drop done all_builtin_dirs ≡ []) (λ r. drop done all_builtin_dirs ≡ r.0.now ∷ drop r.1 all_builtin_dirs) }
{
    match done {
        0 => Some((b"/lib", 1)),
        1 => Some((b"/usr/lib", 2)),
        2 => Some((b"/lib64", 3)),
        3 => Some((b"/usr/lib64", 4)),
        4 => Some((lib_of(Abi::I386), 5)),
        5 => Some((Abi::I386.row().usr_lib, 6)),
        6 => Some((lib_of(Abi::X86_64), 7)),
        7 => Some((Abi::X86_64.row().usr_lib, 8)),
        8 => Some((lib_of(Abi::X32), 9)),
        9 => Some((Abi::X32.row().usr_lib, 10)),
        10 => Some((lib_of(Abi::Aarch64), 11)),
        11 => Some((Abi::Aarch64.row().usr_lib, 12)),
        12 => Some((lib_of(Abi::ArmHf), 13)),
        13 => Some((Abi::ArmHf.row().usr_lib, 14)),
        14 => Some((lib_of(Abi::Riscv64D), 15)),
        15 => Some((Abi::Riscv64D.row().usr_lib, 16)),
        16 => Some((b"/lib64/lp64d", 17)),
        17 => Some((b"/usr/lib64/lp64d", 18)),
        _ => None,
    }
}
