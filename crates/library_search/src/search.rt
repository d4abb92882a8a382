//! The results of an image's search before its links are planned.
ghost use Rattle.std.specs.Prelude.{◌≡◌, ◌≤◌, ℕ, All, List, true, IfErr, IfOk, IsTrue, length};
ghost use Rattle.std.specs.List.{list_any};
ghost use Rattle.std.specs.Map.{keys_of};
ghost use Rattle.std.specs.Str.{bytes_eq};
ghost use Rattle.file_stamps.specs.Files.{AreRead};
ghost use Rattle.aux_cache.specs.Stamps.{AreRecordable};
ghost use Rattle.elf_dynamic.specs.Begun.{ReadsKeys};
ghost use Rattle.hwcap_dirs.specs.Places.{absent, are_dirs, are_spelled, places};
ghost use Rattle.file_table.specs.Analyses.{HaveAnalyses};
ghost use Rattle.place_libraries.specs.Rows.{AreOfPlaces};
ghost use Rattle.library_files.specs.Search.{wanted};
ghost use Rattle.file_table.specs.Table.{analysis_at};
ghost use Rattle.tree_face.specs.Known.{IfKnown};
ghost use Rattle.image_tree.specs.declared.path.TheConstants.{PATH_MAX};
ghost use Rattle.ldso_conf.specs.Endings.{ending_of};
ghost use Rattle.ldso_conf.specs.Reading.{IsConfOf, ReadsConf};
ghost use Rattle.library_search.specs.Faults.{find_ending, is_store_fault};
ghost use Rattle.library_search.specs.Begun.{opened_wanted};
ghost use Rattle.library_search.specs.Found.{IsSearched, ReadsSearch};
ghost use Rattle.library_search.specs.Judged.{AreJudged};
ghost use Rattle.library_search.specs.Ldconfig.{conf_of, conf_or};
ghost use Rattle.library_search.specs.Stages.{IsSearchOf, HasRead};

use crate::fault::FindFault;
use crate::judging::judge;
use aux_cache::Stamps;
use file_stamps::{Files, read_files};
use hwcap_dirs::{Dirs, Scope, order};
use ldso_conf::{CONF_PATH, Conf, ConfFault, given_dirs, read_conf};
use lib_types::Text;
use library_files::wanted_files;
use std::alloc::Global;
use tree_face::{Store, Tree};

/// The results of an image's search before its links are planned.
#[derive(Drop)]
pub struct Search {
    pub conf: Conf,
    /// The search directories.
    pub dirs: Dirs,
    /// The analyses of the files with library names in these directories. Those that the loader can't search for count as no libraries.
    pub files: Files,
}

/// The path of the conf file: this one, or that of ldconfig(8).
pub fn conf_or(conf: &Option<Text>) -> &[u8]
    ensures { result.now ≡ conf_or conf.now }
{
    match conf {
        Some(path) => path.as_bytes(),
        None => CONF_PATH,
    }
}

/// The directories that the conf files name, or those of the command line.
#[tactic(auto, using(ldso_conf::proofs::CommandLine::given_reads, ldso_conf::proofs::CommandLine::given_gave_up))]
pub fn read_source<S: Store>(
    alloc: Global,
    scope: &Scope,
    tree: &Tree,
    store: &mut S,
) -> Result<Conf, ConfFault>
    ensures conf { IfOk result (λ conf. IfKnown (S.state store.old).held (λ held. IsConfOf (conf_of scope.now) conf held tree.now)) }
    ensures short { IfOk result (λ conf. All (λ dir. length dir ≤ PATH_MAX) conf.dirs) }
    ensures reads { ReadsConf (conf_of scope.now) tree.now (ending_of result) (S.state store.old) (S.state store.new) }
{
    match scope {
        Scope::Image => read_conf(alloc, CONF_PATH, tree, store),
        Scope::Root { conf } => read_conf(alloc, conf_or(conf), tree, store),
        Scope::Only { dirs } => Ok(given_dirs(alloc, dirs)?),
    }
}

/// Searches a tree, given the directories that the conf files or the command line name. Reads the files with library names in the search
/// directories, and opens a file only if its identity has no stamp.
///
/// `conf` may come from a larger tree. Of that tree, the search directories, their names, and the files with library names must be here.
pub fn search_places<S: Store>(
    alloc: Global,
    scope: &Scope,
    conf: Conf,
    tree: &Tree,
    store: &mut S,
    loaded: &Stamps,
) -> Result<Search, FindFault>
    requires short { All (λ dir. length dir ≤ PATH_MAX) conf.dirs }
    requires recordable { AreRecordable loaded.now }
    ensures conf { IfOk result (λ search. search.conf ≡ conf) }
    ensures places { IfOk result (λ search. search.dirs.places ≡ places scope.now tree.now conf.dirs) }
    ensures absent { IfOk result (λ search. search.dirs.absent ≡ absent tree.now conf.dirs) }
    ensures spelled { IfOk result (λ search. IsTrue (are_spelled search.dirs.places)) }
    ensures looked { IfOk result (IsSearchOf scope.now tree.now) }
    ensures read { IfOk result (λ search. IfKnown (S.state store.old).held (λ held. HasRead scope.now held tree.now loaded.now search)) }
    ensures all_read { IfOk result (λ search. AreRead tree.now (analysis_at search.files.table) (wanted tree.now search.dirs.places)) }
    ensures reads { ReadsKeys (opened_wanted tree.now loaded.now (places scope.now tree.now conf.dirs)) (find_ending result) (S.state store.old) (S.state store.new) }
    ensures others { IfErr result (λ fault. is_store_fault fault ≡ true) }
{
    tree.know();
    let dirs = order(alloc, scope, tree, &conf.dirs)?;
    let found = wanted_files(alloc, tree, &dirs)?;
    let mut files = Files::new(alloc, found.len());
    read_files(alloc, tree, store, loaded, found, &mut files)?;
    judge(alloc, scope, &mut files.table)?;
    Ok(Search { conf, dirs, files })
}

/// Reads the conf files, unless the command line gives directories, and then the files with library names in the search directories. It
/// opens one of the latter only if the file's identity has no stamp.
pub fn search_image<S: Store>(
    alloc: Global,
    scope: &Scope,
    tree: &Tree,
    store: &mut S,
    loaded: &Stamps,
) -> Result<Search, FindFault>
    requires recordable { AreRecordable loaded.now }
    ensures found { IfOk result (λ search. IfKnown (S.state store.old).held (λ held. IsSearched scope.now held tree.now loaded.now search)) }
    ensures real { IfOk result (λ search. IsTrue (are_dirs tree.now search.dirs.places)) }
    ensures spelled { IfOk result (λ search. IsTrue (are_spelled search.dirs.places)) }
    ensures read { IfOk result (λ search. AreRead tree.now (analysis_at search.files.table) (wanted tree.now search.dirs.places)) }
    ensures all { IfOk result (λ search. HaveAnalyses (analysis_at search.files.table) (wanted tree.now search.dirs.places)) }
    ensures only { IfOk result (λ search. (path : List ℕ) → list_any (bytes_eq path) (keys_of search.files.table) ≡ true →
        list_any (bytes_eq path) (wanted tree.now search.dirs.places) ≡ true) }
    ensures judged { IfOk result (λ search. AreJudged scope.now (analysis_at search.files.table)) }
    ensures rows { IfOk result (λ search. AreOfPlaces tree.now search.dirs.places search.files.table) }
    ensures reads { ReadsSearch scope.now tree.now loaded.now (find_ending result) (S.state store.old) (S.state store.new) }
    ensures others { IfErr result (λ fault. is_store_fault fault ≡ true) }
{
    let conf = read_source(alloc, scope, tree, store)?;
    search_places(alloc, scope, conf, tree, store, loaded)
}
