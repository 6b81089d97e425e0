//! Records of MIME types.

use super::{assert_printed, assert_that};
use data_url::laws::{canonical, same_text};
use data_url::mime::Mime;
use std::alloc::{AllocError, Global};
use std::fmt::Write;
use std::process::Abort;
use std::test::Fail;

/// Returns a record of a type, a subtype, and the name and value of one parameter, as they are given.
fn record_of(alloc: Global, texts: [&str; 4]) -> Result<Mime, AllocError> {
    let [type_, subtype, name, value] = texts;
    let mut mime = Mime::new(alloc, type_, subtype)?;
    let pair = (
        String::from_str(alloc, name)?,
        String::from_str(alloc, value)?,
    );
    mime.parameters.push(pair)?;
    Ok(mime)
}

#[test]
fn a_record_that_no_text_gives(rt: HostRuntime) -> Result<(), Fail> {
    let odd = record_of(rt.alloc(), ["a b", "", "", "\u{e9}"])?;
    assert_printed(&rt, rt.alloc(), "odd", &odd, "a b/;=\"\u{e9}\"")?;
    Ok(())
}

#[test]
fn records_built_by_hand(rt: HostRuntime) -> Result<(), Fail> {
    let html = record_of(rt.alloc(), ["text", "html", "one", "two"])?;
    assert_that(&rt, "html", html.matches("text", "html"));
    assert_that(&rt, "html", !html.matches("text", "plain"));
    assert_that(&rt, "one", html.get_parameter("one") == Some("two"));
    assert_that(&rt, "two", html.get_parameter("two").is_none());
    Ok(())
}

#[test]
fn records_are_compared(rt: HostRuntime) -> Result<(), Fail> {
    let html = record_of(rt.alloc(), ["text", "html", "one", "two"])?;
    let plain = Mime::new(rt.alloc(), "text", "plain")?;
    let copy = plain.clone()?;
    assert_that(&rt, "plain", plain.matches("text", "plain"));
    assert_that(&rt, "copy", copy.matches("text", "plain"));
    assert_that(&rt, "equal", copy == plain);
    assert_that(&rt, "not equal", html != plain);
    Ok(())
}

/// A copy of each of two records has the same texts.
#[test]
fn records_are_cloned(rt: HostRuntime) -> Result<(), Fail> {
    let plain = Mime::new(rt.alloc(), "text", "plain")?.clone()?;
    assert_that(&rt, "plain", plain.matches("text", "plain"));
    assert_printed(&rt, rt.alloc(), "plain", &plain, "text/plain")?;
    let html = record_of(rt.alloc(), ["text", "html", "one", "two"])?;
    let copy = html.clone()?;
    assert_that(&rt, "html", copy.matches("text", "html") & (copy == html));
    assert_that(&rt, "one", copy.get_parameter("one") == Some("two"));
    assert_printed(&rt, rt.alloc(), "html", &copy, "text/html;one=two")?;
    Ok(())
}

/// MIME types, of which most have values that are printed in quotes, or have no value that is kept.
const TYPES: [&str; 16] = [
    "TEXT/HTML;a=\"b;c\";d=;e=\"\"",
    "x/x;a=\"q\\\"r\";b=\"\\a\";c=d\"e;f=\"g",
    "x/x;a=\"\\",
    "x/x;a=\"\\\\\\\"\\\\\"",
    "x/x;a=\"b\"\u{100};c=d",
    "x/x;a=\"b;\u{100}\";c=d",
    "x/x;a=b c ;d= e",
    "x/x;a=\"b\tc\";d=\te\t",
    " a/b ; c=d ",
    "x/x;a=1;A=2;b=\"3\";B=4",
    "x/x;a=b=c;d==",
    "x/x;a=/;b=@;c=(;d=?",
    "x/x;a=\u{e9}\u{ff};b=\u{80}",
    "x/x;;;a=b;;",
    "!#$%&'*+-.^_|~/`;0=\"1\"",
    "x/x",
];

/// Asserts that the record of a text is printed to a text that has the same record, and is printed alike.
fn assert_printed_again(rt: &impl Abort, alloc: Global, text: &str) -> Result<(), Fail> {
    let mime = Mime::from_str(alloc, text)?;
    let printed = format!(in alloc; "{mime}")?;
    let again = Mime::from_str(alloc, printed.as_str())?;
    assert_that(rt, text, again == mime);
    assert_printed(rt, alloc, text, &again, printed.as_str())?;
    Ok(())
}

#[test]
fn records_are_printed_and_parsed_again(rt: HostRuntime) -> Result<(), Fail> {
    for text in &TYPES {
        assert_printed_again(&rt, rt.alloc(), text)?;
    }
    Ok(())
}

/// Each of the first 256 code points, in a name, in values with and without quotes, and after a `\`.
#[test]
fn records_of_each_code_point(rt: HostRuntime) -> Result<(), Fail> {
    for byte in 0..=u8::MAX {
        let c = char::from(byte);
        let names = format!(in rt.alloc(); "x/x;a{c}b=1;c=d{c}e;f={c}")?;
        assert_printed_again(&rt, rt.alloc(), names.as_str())?;
        let quoted = format!(in rt.alloc(); "x/x;a=\"{c}\";b=\"c\\{c}d{c}\"e;f={c}g\"")?;
        assert_printed_again(&rt, rt.alloc(), quoted.as_str())?;
    }
    Ok(())
}

#[test]
fn the_order_of_parameters_counts(rt: HostRuntime) -> Result<(), Fail> {
    let first = Mime::from_str(rt.alloc(), "x/x;a=1;b=2")?;
    let second = Mime::from_str(rt.alloc(), "x/x;b=2;a=1")?;
    assert_that(&rt, "order", first != second);
    canonical(&first);
    same_text(&first, &second);
    Ok(())
}

/// Appends three parameters whose names end in these bytes and have one number, and then the same names in the other
/// case. The search of a name among the first ones computes a number from its last three bytes, which is the same for
/// `0k` as for `1a` after the same byte.
fn write_twice(text: &mut String, number: u32) -> Result<(), AllocError> {
    write!(text, ";n{number}end=1;n{number}0k=2;n{number}1a=3")?;
    write!(text, ";N{number}END=4;N{number}1A=5;N{number}0K=6")
}

/// Returns a MIME type with parameters whose names come again in the other case: at once, and after all of them. Also
/// returns it with the first parameter of each name alone.
fn with_names_again(alloc: Global, count: u32) -> Result<[String; 2], AllocError> {
    let mut text = String::from_str(alloc, "x/x")?;
    let mut first = String::from_str(alloc, "x/x")?;
    for number in 0..count {
        write_twice(&mut text, number)?;
        write!(first, ";n{number}end=1;n{number}0k=2;n{number}1a=3")?;
    }
    for number in 0..count {
        write_twice(&mut text, number)?;
    }
    Ok([text, first])
}

/// With 60 numbers there are 180 names, more than the 128 that are not searched in a set.
#[test]
fn names_that_come_again(rt: HostRuntime) -> Result<(), Fail> {
    for count in [1, 5, 6, 42, 43, 60] {
        let [text, first] = with_names_again(rt.alloc(), count)?;
        let mime = Mime::from_str(rt.alloc(), text.as_str())?;
        assert_printed(&rt, rt.alloc(), "names", &mime, first.as_str())?;
    }
    Ok(())
}
