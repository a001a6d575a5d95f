// Reads the words of the command line.
ghost use Rattle.std.specs.Prelude.{◌≡◌, map, option_map, string_bytes, ◌&&◌, nat_le};
ghost use Rattle.ktflow.specs.Program.{request_of, steps_of};

const DEFAULT_STEPS: u64 = 1_000_000;

const MOST_STEPS: u64 = 1_000_000_000;

/// A run of a file with so many steps.
#[derive(Clone, Copy)]
pub(crate) struct RunRequest<'a> {
    pub(crate) file: &'a str,
    pub(crate) steps: u64,
}

/// What the words ask for, none where they have no shape.
pub(crate) fn read_request(words: &[String]) -> Option<RunRequest<'_>>
    ensures { option_map (λ r. record { file = r.file.now; steps = r.steps }) result
        ≡ request_of (map (λ w. string_bytes w) words.now) }
{
    if words.len() == 2 {
        if words[0].as_str() != "run" {
            return None;
        }
        return Some(RunRequest {
            file: words[1].as_str(),
            steps: DEFAULT_STEPS,
        });
    }
    if words.len() == 4 {
        if words[0].as_str() != "run" || words[1].as_str() != "--steps" {
            return None;
        }
        return match read_steps(words[2].as_str()) {
            Some(steps) => Some(RunRequest {
                file: words[3].as_str(),
                steps,
            }),
            None => None,
        };
    }
    None
}

// Whether the byte is a digit that keeps the number in reach.
fn goes_on(value: u64, digit: u8) -> bool
    ensures { result ≡ (nat_le value 1000000000 && (nat_le 48 digit && nat_le digit 57)) }
{
    value <= MOST_STEPS && b'0' <= digit && digit <= b'9'
}

// One to ten digits with a value from 1 to 1,000,000,000.
fn read_steps(word: &str) -> Option<u64>
    ensures { result ≡ steps_of word.now }
{
    let digits = word.as_bytes();
    if digits.len() > 10 {
        return None;
    }
    let mut value = 0;
    for digit in digits {
        if !goes_on(value, *digit) {
            return None;
        }
        value = 10 * value + (*digit - b'0') as u64;
    }
    if value < 1 || value > MOST_STEPS {
        return None;
    }
    Some(value)
}
