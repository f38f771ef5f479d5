//! Laws of the words of every text.

ghost use Rattle.std.specs.Prelude.{◌≡◌, ◌∷◌, [], ◌++◌, ℕ, List, Some, true, map, MatchOption};
ghost use Rattle.texts.specs.Shell.{IsText};
ghost use Rattle.texts.specs.Shell.Splitting.{split_chars};
ghost use Rattle.texts.specs.Shell.Quoting.{quoted, quoted_word};
ghost use Rattle.texts.specs.Posix as posix;
ghost use Rattle.texts.specs.PosixExamples as examples;

/// A text has at most one list of words.
pub fn one_list()
    ensures { (cs : List ℕ) (first second : List (List ℕ)) →
        IsText cs first → IsText cs second → first ≡ second }
{}

/// The computed words are those of the grammar. If there are none, the grammar has none.
pub fn computed_words()
    ensures { (cs : List ℕ) →
        MatchOption (split_chars cs) ((words : List (List ℕ)) → ¬ IsText cs words) (IsText cs) }
{}

/// Words written by the rule of `quote` read back as themselves, whatever they contain. This is about the reading of
/// [`split`](crate::shell::split); `shell_reading` is about a POSIX shell.
pub fn quoted_words()
    ensures grammar { (words : List (List ℕ)) → IsText (quoted words) words }
    ensures computed { (words : List (List ℕ)) → split_chars (quoted words) ≡ Some words }
{}

/// Examples: what a POSIX shell reads, by the definitions, and texts without a reading.
pub fn worked_readings()
    ensures words { examples.WordsAreRead }
    ensures joined { examples.LinesAreJoined }
    ensures operators { examples.OperatorsAreRead }
    ensures acting { examples.ActingTextsHaveNone }
    ensures commands { examples.CommandsAreRead }
{}

/// A POSIX shell reads words written by the rule of `quote` as themselves, whatever they contain: a single one (`word`), a
/// list of them, without any operator (`words`), and a list before a text that begins with a blank or an operator
/// (`before`). If the first word isn't one that a shell takes as its own, the list is one command (`command`).
pub fn shell_reading()
    ensures word { (word : List ℕ) → posix.tokens (quoted_word word) ≡ Some (posix.Word word ∷ []) }
    ensures words { (words : List (List ℕ)) → posix.tokens (quoted words) ≡ Some (map posix.Word words) }
    ensures before { (word : List ℕ) (words : List (List ℕ)) (rest : List ℕ) (more : List posix.Token) →
        posix.is_apart rest ≡ true → posix.tokens rest ≡ Some more →
        posix.tokens (quoted (word ∷ words) ++ rest) ≡ Some (map posix.Word (word ∷ words) ++ more) }
    ensures command { (program : List ℕ) (words : List (List ℕ)) → posix.is_program program ≡ true →
        posix.command (quoted (program ∷ words)) ≡ Some (program ∷ words) }
{}
