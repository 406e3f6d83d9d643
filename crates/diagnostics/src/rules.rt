//! The rules by which a hint is found for a word that can't come at its place.

use crate::bracket::{FORMS, JOIN, shape_of};
use crate::place::Hint::{OfCall, OfWord, Shape, Text};
use crate::place::When::{
    After, AfterPart, AfterRelation, Bracket, Closed, Ends, In, InName, InNumber, Keyword, Like,
    Name, Next, Number, Open, Operand, Part, PartAfter, Round, SecondAfter, Start, Then, Within,
    WithinLater, Word,
};
use crate::place::{Hint, Place, Rule};
use crate::words::{Said, said_of};

/// What begins a query.
pub const BEGINNING: &str = "a query begins with its inputs, as in input a/1;";

/// What stands for strings.
pub const STRINGS: &str = "there are no strings; give each text a number";

/// What can't be said of a name.
pub const NUMBERED: &str = "a column is written by its number, as #0";

/// How groups are filtered.
const HAVING: &str = "use where(group(a; #0; count); #1 > 1)";

/// How one relation is taken from another.
const EXCEPT: &str = "use except(a, b)";

/// What a select's columns are written by.
const COLUMNS: &str = "list the columns, as in select(a; #0, #1), or write a for all of them";

/// What a join without pairs lacks.
const PAIRLESS: &str =
    "a join has pairs of columns, as in join(a, b; #0 = #0); for all pairs of records join on a constant column";

/// The words of conditions.
const CONDITION: [&str; 10] = ["and", "or", "not", "[", "=", "!=", "<", "<=", ">", ">="];

/// The words of other languages for what Loom has no form for.
static MISSING: [Said; 7] = [
    (
        &["order", "order_by", "sort", "sort_by"],
        "an answer comes in ascending order; sort gives it another one, as in loom run QUERY INPUT | sort -k 2n",
    ),
    (
        &["limit", "top", "head", "fetch", "take"],
        "there is no limit; head takes the first lines, as in loom run QUERY INPUT | head",
    ),
    (
        &[
            "left",
            "right",
            "full",
            "outer",
            "left_join",
            "right_join",
            "outer_join",
        ],
        "there is no outer join; LANGUAGE.md shows under join how to write one",
    ),
    (
        &["cross", "cross_join", "product"],
        "all pairs are a join on a constant column, as in join(select(a; 0, #0), select(b; 0, #0); #0 = #0)",
    ),
    (&["having"], HAVING),
    (
        &["union"],
        "use concat(a, b), or distinct(concat(a, b)) to drop repeats",
    ),
    (&["minus", "difference"], EXCEPT),
];

/// The words that other languages have before a bracket.
static CALLS: [Said; 6] = [
    (
        &["sum", "min", "max"],
        "a column without brackets follows, as in sum #1",
    ),
    (&["count"], "count stands alone"),
    (&["filter"], "use where(a; #0 > 1)"),
    (&["map", "project"], "use select(a; #0)"),
    (&["unique"], "use distinct(a)"),
    (
        &["loop", "repeat", "while", "recursive", "fixpoint"],
        "use iterate(3; x = a; distinct(x)), or closure(3; x = a; select(x; #0)) to go on with what is new",
    ),
];

/// A list of rules, each as its conditions, `=>` and what it says.
macro_rules! rules {
    ($($($when:expr),+ => $hint:expr;)+) => {
        [$(Rule { when: &[$($when),+], hint: $hint }),+]
    };
}

/// The rules for signs.
static SIGNS: [Rule; 12] = rules! {
    Word(&["="]), Ends(&["="]) => Text("equality is written with one =, as in #0 = 1");
    Word(&["<"]), Ends(&["="]) => Text("at most is written <=");
    Word(&[">"]), Ends(&["="]) => Text("at least is written >=");
    Word(&[">"]), Ends(&["<"]) => Text("unequal is written !=");
    Word(&["-"]), Ends(&["-"]), Open => Text("a second - needs brackets, as in -(-5)");
    Word(&["/"]), Next(&["/", "*"]), Open => Text("there is no division, and there are no comments");
    Word(&["/"]), Open => Text("there is no division");
    Word(&["-"]), Next(&["-"]) => Text("there are no comments");
    Word(&["/"]), Next(&["/", "*"]) => Text("there are no comments");
    Word(&["/"]), Ends(&["/"]) => Text("there are no comments");
    Word(&[")"]), Bracket(b'[') => Text("a [ is still open");
    Word(&["]"]), Bracket(b'(') => Text("a ( is still open");
};

/// Those for what comes behind a relation.
static RELATIONS: [Rule; 5] = rules! {
    Word(&["-"]), InName => Text("a name has lower-case letters, digits and _, as my_sale");
    Word(&["-"]), AfterRelation => Text(EXCEPT);
    After(&["from"]) => Text("a relation stands inside its form, as in select(a; #0)");
    Word(&["inner"]), AfterRelation => Text(JOIN);
    AfterRelation => OfWord;
};

/// Those for the words of items, and for a bracket behind a word.
static ITEMS: [Rule; 14] = rules! {
    Word(&["epoch"]), Start => Text("this looks like an input; the query comes first");
    Start => Text(BEGINNING);
    Keyword, After(&["input", "let"]) => Text("a keyword can't be a name");
    SecondAfter(&["input"]) => Text("the number of fields follows the name, as in input a/2;");
    Word(&["let"]), Ends(&[";"]), Open => Text("a let can't stand in a form; write its relation in place of its name");
    Ends(&[";"]), Closed, Like("input") => Text("did you mean input?");
    Ends(&[";"]), Closed, Like("output") => Text("did you mean output?");
    Ends(&[";"]), Closed, Like("let") => Text("did you mean let?");
    Word(&["with"]), Ends(&[";"]), Closed => Text("a relation is named by a let, as in let b = a;");
    Word(&["input"]), Ends(&[";"]) => Text("inputs come before lets and outputs");
    Word(&["let"]), Ends(&[";"]) => Text("lets come before outputs");
    Word(&["input", "let", "output"]) => Text("a ; is missing before it");
    After(&["not"]) => Text("not is followed by a condition in [ ], as in not [#0 = 1]");
    Word(&["("]) => OfCall;
};

/// Those for a loop's number of turns and its variable.
static LOOPS: [Rule; 3] = rules! {
    In(&["iterate", "closure"]), Part(0), Ends(&["("]) => Shape;
    In(&["iterate", "closure"]), Part(1), Ends(&[";"]) => Shape;
    Word(&["("]), In(&["iterate", "closure"]), Part(1), After(&FORMS) => Shape;
};

/// Those for the words of SQL in a form.
static SQL: [Rule; 11] = rules! {
    Word(&["*"]), In(&["select"]), Part(0), Ends(&["("]) => Text(COLUMNS);
    Word(&["*"]), In(&["select"]), PartAfter(0), Ends(&[";", ","]) => Text(COLUMNS);
    Word(&["on", "using"]), In(&["join"]), Part(0) => Text(JOIN);
    Word(&["as"]), In(&["select", "where", "group", "join"]), PartAfter(0) => Text("columns have no names; they are numbered from #0");
    Word(&["case", "if", "iif"]), In(&["select", "where"]), PartAfter(0) =>
        Text("there is no case: make each part by a select of a where, and put them together by concat");
    Word(&["epoch"]), In(&["select", "where"]), PartAfter(0) => Text("a query doesn't see which epoch it is; each epoch is answered by itself");
    Word(&["is", "null"]), In(&["select", "where"]), PartAfter(0) => Text("there is no null; give what is missing a number, and compare with it");
    Word(&["like", "ilike", "regexp"]), In(&["where"]), PartAfter(0) => Text(STRINGS);
    Word(&["in"]), In(&["where"]), PartAfter(0) => Text("compare with each number, as in #0 = 1 or #0 = 2");
    Word(&["between"]), In(&["where"]), PartAfter(0) => Text("compare with both bounds, as in 1 <= #0 and #0 <= 5");
    Word(&["having"]), In(&["group"]), PartAfter(0) => Text(HAVING);
};

/// Those for a group.
static GROUPS: [Rule; 7] = rules! {
    Word(&[";"]), In(&["group"]), Part(1), Ends(&[";"]) => Text("a group has at least one key");
    Word(&[";"]), In(&["group"]), Then(&["having"]) => Text(HAVING);
    Word(&["distinct"]), In(&["group"]), After(&["count"]) =>
        Text("count the records of a distinct, as in group(distinct(select(a; #0, #1)); #0; count)");
    Word(&["+", "-", "*"]), In(&["group"]), PartAfter(0) =>
        Text("a group takes columns: compute them first, as in group(select(a; #0, #1 * #2); #0; sum #1)");
    In(&["group"]), PartAfter(1), Name => Text("the aggregates are count, sum, min and max");
    Word(&["count", "sum", "min", "max"]), In(&["group"]), Part(1) => Shape;
    In(&["group"]), Part(1), Number => Text("a key is a column; to group all records make one, as in group(select(a; 0, #0); #0; count)");
};

/// Those for conditions.
static CONDITIONS: [Rule; 8] = rules! {
    Word(&CONDITION), Within("select"), WithinLater => Text("a select computes numbers, and conditions stand in a where");
    Word(&CONDITION), Within("where"), InNumber => Text("round brackets hold numbers, and conditions stand in [ ]");
    Word(&["["]), Within("where") => Text("[ ] holds a condition, and ( ) groups numbers");
    Word(&CONDITION), Within("where"), Ends(&["]"]) => Text("[ ] holds a condition, and ( ) groups numbers");
    Word(&["=", "!=", "<", "<=", ">", ">="]), Within("where"), WithinLater => Text("two comparisons are joined by and, as in 1 < #0 and #0 < 5");
    Word(&["and"]), Within("join") => Text("a comma joins two pairs, as in join(a, b; #0 = #0, #1 = #1)");
    Word(&["!=", "<", "<=", ">", ">="]), Within("join"), WithinLater =>
        Text("a join has only =: compare further in a where, as in where(join(a, b; #0 = #0); #1 < #2)");
    Word(&["true", "false"]), Round => Text("a condition is a comparison, as in #0 > 1");
};

/// Those for other parts of a form.
static PARTS: [Rule; 7] = rules! {
    Word(&[")"]), In(&["join"]), Part(0), AfterPart => Text(PAIRLESS);
    Word(&[")"]), In(&["join"]), Part(1), Ends(&[";"]) => Text(PAIRLESS);
    Operand, Name, Then(&["("]) => Text("there are no functions; numbers are computed by +, - and *");
    Operand, Name => Text(NUMBERED);
    Word(&["min", "max"]), Round, Then(&["("]) =>
        Text("there is no min or max of two numbers: make each part by a select of a where, and put them together by concat");
    Word(&["count", "sum", "min", "max"]), Round => Text("an aggregate stands in a group; its value is a column");
    Word(&[",", ";", ")"]), Round, AfterPart => Shape;
};

/// What a rule says at a place.
fn text_of(hint: &Hint, place: &Place<'_>) -> Option<&'static str> {
    match hint {
        Text(text) => Some(text),
        OfWord => shape_of(place.word).or(said_of(&MISSING, place.word)),
        OfCall => said_of(&CALLS, place.last).or(said_of(&MISSING, place.last)),
        Shape => shape_of(place.bracket?.name),
    }
}

/// What the first of some rules says that is to be used and has something to say.
fn said(rules: &'static [Rule], place: &Place<'_>) -> Option<&'static str> {
    for rule in rules {
        if place.fits(rule) {
            if let Some(text) = text_of(&rule.hint, place) {
                return Some(text);
            }
        }
    }
    None
}

/// The hint by the rules for a word in any place.
fn anywhere(place: &Place<'_>) -> Option<&'static str> {
    said(&SIGNS, place)
        .or(said(&RELATIONS, place))
        .or(said(&ITEMS, place))
}

/// The hint by the rules for a word in a bracket.
fn in_bracket(place: &Place<'_>) -> Option<&'static str> {
    said(&LOOPS, place)
        .or(said(&SQL, place))
        .or(said(&GROUPS, place))
        .or(said(&CONDITIONS, place))
        .or(said(&PARTS, place))
}

/// The hint for the word of a place, if one is known: by the first rule that is to be used and has something to say.
pub fn of_place(place: &Place<'_>) -> Option<&'static str> {
    anywhere(place).or(in_bracket(place))
}
