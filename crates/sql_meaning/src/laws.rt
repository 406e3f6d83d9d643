ghost use Rattle.std.specs.Prelude.{◌≡◌, ◌≤◌, [], suc, Bool, List, ℕ, ℤ, map, length, slice_index_or};
ghost use Rattle.std.specs.Int.{int_wrap};
ghost use Rattle.std.specs.List.{AllByRecursion};
ghost use mir.Syntax.{w64};
ghost use Rattle.semantics.specs.Multiset.{Record, ◌≈◌};
ghost use Rattle.semantics.specs.Meaning.{program_meaning, value};
ghost use Rattle.semantics.specs.Query.{Scalar, Input, Program};
ghost use Rattle.semantics.specs.Typing.{WellTyped};
ghost use Rattle.sql_meaning.specs.AnyOrder.{MayAnswer};
ghost use Rattle.sql_meaning.specs.Count.{program_count};
ghost use Rattle.sql_meaning.specs.Epochs.{answers_by_epoch, contents_by_epoch, rows_at, rows_by_epoch, term_rows_by_epoch, HaveEpochs};
ghost use Rattle.sql_meaning.specs.Plain.{plain, HasNoError};
ghost use Rattle.sql_meaning.specs.PlainEpochs.{plain_answers_by_epoch, NoEpochHasError};
ghost use Rattle.sql_meaning.specs.PlainScript.{plain_answers, ScriptHasNoError};
ghost use Rattle.sql_meaning.specs.Range.{IsRowOfWords, StaysModerate};
ghost use Rattle.sql_meaning.specs.Remainder.{by_remainders};
ghost use Rattle.sql_meaning.specs.Script.{Query, Script, Table, Term};
ghost use Rattle.sql_meaning.specs.ScriptMeaning.{answers, contents, evaluated, found_by, rows_of, term_rows, Contents};
ghost use Rattle.sql_meaning.specs.Translation.{expression, script_of, HaveWords};
ghost use Rattle.sql_meaning.specs.Wanted.{contents_of_wanted, IsWanted};
ghost use Rattle.sql_meaning.specs.WellFormed.{IsWellFormed};

/// On tables of 64-bit numbers, one for each input, the script of a program gives at each output what the program means there, with recursive tables
/// and without.
pub fn law_meaning()
    ensures { (recursive : Bool) (p : Program) (output : ℕ) (tables : List (List Record)) → length tables ≡ length p.inputs → AllByRecursion HaveWords tables →
        slice_index_or (answers (script_of recursive p) tables) output [] ≈ program_meaning p output (λ i. slice_index_or tables i []) }
{}

/// The script of a well-typed program is well formed on tables of the inputs' arities, and its results have the outputs' arities.
pub fn law_well_formed()
    ensures { (recursive : Bool) (p : Program) (ns : List ℕ) → WellTyped p ns →
        IsWellFormed (map (λ (a : Input). a.arity) p.inputs) (script_of recursive p) ns }
{}

/// A database that keeps the rows of each table in an order of its own still answers with the multisets that the script means.
pub fn law_any_order()
    ensures { (s : Script) (tables : List (List Record)) (output : ℕ) (rows : List Record) → MayAnswer s tables output rows →
        rows ≈ slice_index_or (answers s tables) output [] }
{}

/// A database goes on with a recursive table until a turn finds nothing, whatever the number of its turns. If that is turn k, and the turn after the
/// query's last finds nothing by the definition, then the database has found the query's rows. Where that turn finds a row, the database answers more.
pub fn law_recursion()
    ensures one { (turns k : ℕ) (t : Table) (m : Term) (holds : Contents) → (found_by (term_rows m holds) k (holds t)).latest ≡ [] →
        (found_by (term_rows m holds) (suc turns) (holds t)).latest ≡ [] →
        (found_by (term_rows m holds) k (holds t)).all ≡ rows_of (Query.recursive turns t m) holds }
    ensures epochs { (turns k : ℕ) (t : Table) (m : Term) (holds : Contents) → (found_by (term_rows_by_epoch m holds) k (holds t)).latest ≡ [] →
        (found_by (term_rows_by_epoch m holds) (suc turns) (holds t)).latest ≡ [] →
        (found_by (term_rows_by_epoch m holds) k (holds t)).all ≡ rows_by_epoch (Query.recursive turns t m) holds }
{}

/// How many tables the script of a program has at most.
pub fn law_count()
    ensures { (recursive : Bool) (p : Program) → length (script_of recursive p).tables ≤ program_count recursive p }
{}

/// On a row of 64-bit numbers no number of a written scalar is larger than 2^126, also on the way, so that 38 digits hold each.
pub fn law_range()
    ensures { (s : Scalar) (r : Record) → IsRowOfWords r → StaysModerate (expression s) r }
{}

/// Standard SQL's remainders give the wrapped number.
pub fn law_wrapped()
    ensures { (z : ℤ) → by_remainders z ≡ int_wrap w64 z }
{}

/// A scalar that is written without wrapping has its value wherever no operator is an error.
pub fn law_plain()
    ensures { (s : Scalar) (r : Record) → HasNoError (plain s) r → evaluated (plain s) r ≡ value s r }
{}

/// A script that is written without wrapping answers as the script with it, wherever no operator, count or sum in it is an error.
pub fn law_right_or_error()
    ensures { (s : Script) (tables : List (List Record)) → ScriptHasNoError s.tables tables → plain_answers s tables ≡ answers s tables }
{}

/// A wanted table holds the same where only wanted tables are made, and those that one reads that is made.
pub fn law_wanted()
    ensures { (wanted : List ℕ) (s : Script) (tables : List (List Record)) (t : Table) → IsWanted wanted t →
        contents_of_wanted rows_of wanted s.tables tables t ≡ contents s.tables tables t }
{}

/// The script of all epochs: on tables whose first column is the epoch, its rows of an epoch, without it, are what the program means on that epoch's
/// rows.
pub fn law_epochs()
    ensures { (recursive : Bool) (p : Program) (output : ℕ) (tables : List (List Record)) (epoch : ℤ) → length tables ≡ length p.inputs →
        AllByRecursion HaveWords tables → AllByRecursion HaveEpochs tables →
        rows_at epoch (slice_index_or (answers_by_epoch (script_of recursive p) tables) output []) ≈ program_meaning p output (λ i. rows_at epoch (slice_index_or tables i [])) }
{}

/// As `law_right_or_error`, of the script of all epochs: where no operator, count or sum is an error in any epoch.
pub fn law_epochs_right_or_error()
    ensures { (s : Script) (tables : List (List Record)) → AllByRecursion HaveEpochs tables → NoEpochHasError s.tables tables →
        plain_answers_by_epoch s tables ≡ answers_by_epoch s tables }
{}

/// As `law_wanted`, of the script of all epochs.
pub fn law_epochs_wanted()
    ensures { (wanted : List ℕ) (s : Script) (tables : List (List Record)) (t : Table) → IsWanted wanted t →
        contents_of_wanted rows_by_epoch wanted s.tables tables t ≡ contents_by_epoch s.tables tables t }
{}
