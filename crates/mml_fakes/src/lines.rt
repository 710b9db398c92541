//! Macros that make the lines of requests and replies, so that each kind of line is spelled only once in the tests.

/// Makes the text of the given lines, each with its newline. A line is named by one of the words below, with its values
/// in parentheses. A text between the words, such as the number of a script's connection, is copied unchanged.
///
/// Requests are `hello`, `see`, `seduction` (of a node, in configuration 0), `close` and `bye`. Replies are `welcome`
/// (to a hello), `seen` (configuration, m, node, p), `granted` (the node of a seduction, and its place), and `left` (to
/// a bye). `closed` is the reply to a close that is the second event and applies the move of node 1. Denials have their
/// names.
#[macro_export]
macro_rules! lines {
    // After `@` come the end of a line and all pieces so far, then the pieces of one more line, and then the words that
    // aren't expanded yet. The pieces are joined one by one, since `concat!` takes no macros as arguments.
    (@ [$end:literal $($so_far:literal)*]) => { concat!($($so_far),*) };
    (@ [$end:literal $($so_far:literal)*] [$($piece:literal)*] $($left:tt)*) => {
        $crate::lines!(@ [$end $($so_far)* $($piece)* $end] $($left)*)
    };
    (@ [$($so_far:literal)*], $text:literal $($left:tt)*) => { $crate::lines!(@ [$($so_far)* $text] $($left)*) };
    (@ $so_far:tt, hello($name:literal, $key:literal) $($left:tt)*) => {
        $crate::lines!(@ $so_far [r#"{"do":"hello","key":""# $key r#"","name":""# $name r#""}"#] $($left)*)
    };
    (@ $so_far:tt, see($node:literal) $($left:tt)*) => {
        $crate::lines!(@ $so_far [r#"{"do":"see","node":"# $node "}"] $($left)*)
    };
    (@ $so_far:tt, seduction($node:literal) $($left:tt)*) => {
        $crate::lines!(@ $so_far [r#"{"at":0,"do":"move","node":"# $node r#","rule":"seduction"}"#] $($left)*)
    };
    (@ $so_far:tt, close $($left:tt)*) => { $crate::lines!(@ $so_far [r#"{"do":"close"}"#] $($left)*) };
    (@ $so_far:tt, bye $($left:tt)*) => { $crate::lines!(@ $so_far [r#"{"do":"bye"}"#] $($left)*) };
    (@ $so_far:tt, welcome($name:literal) $($left:tt)*) => {
        $crate::lines!(@ $so_far [r#"{"ok":"hello","who":""# $name r#""}"#] $($left)*)
    };
    (@ $so_far:tt, seen($at:literal, $m:literal, $node:literal, $p:literal) $($left:tt)*) => {
        $crate::lines!(@ $so_far
            [r#"{"at":"# $at r#","m":"# $m r#","node":"# $node r#","ok":"see","p":"# $p "}"] $($left)*)
    };
    (@ $so_far:tt, granted($node:literal, $place:literal) $($left:tt)*) => {
        $crate::lines!(@ $so_far
            [r#"{"at":0,"node":"# $node r#","ok":"move","place":"# $place r#","rule":"seduction"}"#] $($left)*)
    };
    (@ $so_far:tt, closed $($left:tt)*) => {
        $crate::lines!(@ $so_far [r#"{"at":1,"moved":[1],"ok":"close","place":2}"#] $($left)*)
    };
    (@ $so_far:tt, left $($left:tt)*) => { $crate::lines!(@ $so_far [r#"{"ok":"bye"}"#] $($left)*) };
    (@ $so_far:tt, denied($clause:literal, $name:literal, $text:literal) $($left:tt)*) => {
        $crate::lines!(@ $so_far
            [r#"{"clause":"# $clause r#","deny":""# $name r#"","text":""# $text r#""}"#] $($left)*)
    };
    (@ $so_far:tt, stale($at:literal) $($left:tt)*) => {
        $crate::lines!(@ $so_far
            [r#"{"at":"# $at r#","clause":2,"deny":"stale","text":"this is not the current configuration"}"#] $($left)*)
    };
    (@ $so_far:tt, chosen $($left:tt)*) => {
        $crate::lines!(@ $so_far, denied(3, "chosen", "this node is already chosen") $($left)*)
    };
    (@ $so_far:tt, empty $($left:tt)*) => { $crate::lines!(@ $so_far, denied(2, "empty", "no node is chosen") $($left)*) };
    (@ $so_far:tt, guard $($left:tt)*) => {
        $crate::lines!(@ $so_far, denied(4, "guard", "the guard of this rule does not hold") $($left)*)
    };
    (@ $so_far:tt, hidden $($left:tt)*) => {
        $crate::lines!(@ $so_far, denied(1, "hidden", "this node is not shown to you") $($left)*)
    };
    (@ $so_far:tt, not_greeted $($left:tt)*) => {
        $crate::lines!(@ $so_far, denied(0, "not-greeted", "say hello first") $($left)*)
    };
    ($($line:tt)*) => { $crate::lines!(@ ["\n"], $($line)*) };
}

/// Makes the text of one line, named as for `lines!`, without the newline.
#[macro_export]
macro_rules! line {
    ($($word:tt)*) => { $crate::lines!(@ [""], $($word)*) };
}
