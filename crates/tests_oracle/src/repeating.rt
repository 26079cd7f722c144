// Lines that are played for many numbers.
use std::alloc::Global;
use std::test::Fail;

/// A line with numbers in the place of `#`, `#+1` and `#*2`, of which it has at most eight.
pub(crate) fn filled(alloc: Global, line: &str, number: u64) -> Result<String, Fail> {
    let mut whole = String::new(alloc);
    let mut rest = line;
    for _ in 0..8u32 {
        let Some((before, behind)) = rest.split_once('#') else {
            break;
        };
        whole.push_str(before)?;
        rest = put_number(&mut whole, behind, number)?;
    }
    whole.push_str(rest)?;
    Ok(whole)
}

/// Puts the number, the next one or twice the number, and gives what follows.
fn put_number<'a>(whole: &mut String, behind: &'a str, number: u64) -> Result<&'a str, Fail> {
    if let Some(rest) = behind.strip_prefix("+1") {
        write!(whole, "{}", number.wrapping_add(1))?;
        return Ok(rest);
    }
    if let Some(rest) = behind.strip_prefix("*2") {
        write!(whole, "{}", number.wrapping_mul(2))?;
        return Ok(rest);
    }
    write!(whole, "{number}")?;
    Ok(behind)
}
