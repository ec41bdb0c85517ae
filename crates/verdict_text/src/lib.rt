// What the program `verdict` prints for its whole input, whatever the input is.
#![tactic(auto)]

ghost use Rattle.std.specs.Prelude.{◌≡◌, length};
ghost use Rattle.report.specs.Lines.{printed, Front};
ghost use Rattle.verdict_text.specs.Text.{text_of};

use model::Refusal;

// Puts the text at the start of `out`, answers how many bytes it is, and leaves the rest of `out` as lent. By `front` a
// caller can take `&out[..n]`.
pub fn text_of(input: &[u8], out: &mut [u8; 1024]) -> usize
    ensures size { result ≡ length (text_of input.now) }
    ensures bytes { out.new ≡ printed (text_of input.now) out.old }
    ensures front { Front result out.new }
{
    let mut cut = [0u16; 56];
    if 65535 < input.len() {
        let refusal = Refusal {
            number: 13,
            event: 0,
        };
        return report::report(Err(refusal), 0, 0, &cut, out);
    }
    let mut work = [0u16; 32768];
    let v = judge::judge(input, &mut work, &mut cut);
    let s = report::shape_of(input);
    report::report(v, s.threads, s.finished, &cut, out)
}
