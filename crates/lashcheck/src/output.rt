// What the program writes for a sheet: the answer's bytes, or a refusal's line.
ghost use Rattle.std.specs.Prelude.{◌+◌, ◌≤◌, length, take};
ghost use Rattle.io.specs.Counts.{IsPrefixLen};
ghost use Rattle.answer.specs.Checked.{kept};
ghost use Rattle.lashcheck.specs.Lines.{Line};
ghost use Rattle.lashcheck.specs.Replies.{Reply};
ghost use Rattle.lashcheck.specs.Inner.Texts.{Put};

// Puts what is written for the sheet at the start of `out`, and answers its length.
pub fn reply(sheet: &[u8], out: &mut [u8; 834]) -> usize
    ensures prefix_len { IsPrefixLen result out.new }
    ensures reply { Reply kept sheet.now (take result out.new) }
{
    let outcome = stack_check::check(sheet, out);
    match outcome {
        Ok(n) => n,
        Err(refusal) => put_line(refusal.number, refusal.second as u64, out),
    }
}

// Puts the line of a refusal at the start of `out`: two numbers in decimal, one blank between them, and a line end.
fn put_line(number: u64, second: u64, out: &mut [u8; 834]) -> usize
    ensures prefix_len { IsPrefixLen result out.new }
    ensures line { Line number second (take result out.new) }
{
    let a = put_number(number, out, 0);
    out[a] = b' ';
    let b = put_number(second, out, a + 1);
    out[b] = b'\n';
    b + 1
}

// Puts a number in decimal into `out` from the index `at` on, and answers the index behind it.
fn put_number(n: u64, out: &mut [u8], at: usize) -> usize
    requires { at + 20 ≤ length out.old }
    ensures { Put n at result out.old out.new }
{
    let mut text = [0u8; 20];
    let k = io::decimal(n, &mut text);
    out[at..at + k].copy_from_slice(&text[..k]);
    at + k
}
