//! What holds of all keys.

ghost use Rattle.command_keys.specs.ActionLaws as shared;
ghost use Rattle.command_keys.specs.KeyLaws as spec;
ghost use Rattle.command_keys.specs.WordLaws as law;

/// A key says which command it is of (`read_back`), so commands with one key are the same but for their roots (`equal`). The
/// command with other roots has the same key, if these occur nowhere else in it (`renamed`).
pub fn keys()
    ensures read_back { spec.KeysReadBack }
    ensures equal { spec.EqualKeysRename }
    ensures renamed { spec.RenamedKeysAreEqual }
{}

/// Of the roots that begin at one byte the innermost counts, in whatever order they are.
pub fn roots()
    ensures { spec.InnermostCounts }
{}

/// All words of a command that has a key are in it (`all`): one that the table doesn't have makes no key (`unknown`), and one that is dropped or
/// stands elsewhere makes another (`told`). Names of products don't count, nor do words for a preprocessor unless all count.
pub fn words()
    ensures all { law.AllWordsCount }
    ensures unknown { law.UnknownWordsRefuse }
    ensures told { law.EqualKeysHaveTheWords }
{}

/// Actions with one key are the same but for their roots (`equal`): if the tool, a word, a variable, an input or an output differs otherwise, so
/// does the key. The action with other roots has the same key, if these occur nowhere else in it (`renamed`).
pub fn actions()
    ensures equal { shared.EqualActionsRename }
    ensures renamed { shared.RenamedActionsAreEqual }
{}
