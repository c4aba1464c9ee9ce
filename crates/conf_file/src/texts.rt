//! What the texts of a configuration file have to be.

ghost use Rattle.std.specs.Prelude.{◌≡◌};
ghost use Rattle.std.specs.Char.{is_ascii_digit, is_ascii_hexdigit};
ghost use Rattle.std.specs.List.{list_all};
ghost use Rattle.conf_file.specs.Texts.{number_within as within_bounds, is_port as is_port_number, is_address as ends_with_port, is_stored_form, is_short_name as is_host_name, between as between_texts};

use sql_values::is_name_text;

/// The most bytes of a name of a front, a server or a monitor.
const LONGEST_HOST_NAME: usize = 16;

/// How many hexadecimal digits a stored password has.
const STORED_DIGITS: usize = 40;

fn are_digits(text: &str) -> bool
    ensures { result ≡ list_all is_ascii_digit text.now }
{
    text.as_bytes().iter().all(|byte| byte.is_ascii_digit())
}

fn are_hexadecimal(digits: &[u8]) -> bool
    ensures { result ≡ list_all is_ascii_hexdigit digits.now }
{
    digits.iter().all(|digit| digit.is_ascii_hexdigit())
}

/// The number that decimal digits write, where it isn't below `low` and not above `high`.
pub(crate) fn number_within(digits: &str, low: u32, high: u32) -> Option<u32>
    ensures { result ≡ within_bounds low high digits.now }
{
    if !are_digits(digits) {
        return None;
    }
    match digits.parse::<u32>() {
        Ok(number) if low <= number && number <= high => Some(number),
        _ => None,
    }
}

fn is_port(digits: &str) -> bool
    ensures { result ≡ is_port_number digits.now }
{
    number_within(digits, 0, 65535).is_some()
}

/// Whether a text ends with `:` and a port.
pub(crate) fn is_address(text: &str) -> bool
    ensures { result ≡ ends_with_port text.now }
{
    match text.rsplit_once(':') {
        Some((_host, port)) => is_port(port),
        None => false,
    }
}

/// Whether a text is the stored form of a password: nothing, or `*` and 40 hexadecimal digits.
pub fn is_stored(text: &str) -> bool
    ensures { result ≡ is_stored_form text.now }
{
    match text.as_bytes() {
        [] => true,
        [b'*', digits @ ..] => digits.len() == STORED_DIGITS && are_hexadecimal(digits),
        _ => false,
    }
}

/// Whether a text is a name of a front, a server or a monitor.
pub(crate) fn is_short_name(text: &str) -> bool
    ensures { result ≡ is_host_name text.now }
{
    is_name_text(text.as_bytes()) && text.len() <= LONGEST_HOST_NAME
}
