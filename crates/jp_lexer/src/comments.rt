//! Comments.

ghost use Rattle.std.specs.Prelude.{◌≡◌, ◌≤◌, ◌==◌, not, length, IfSome};
ghost use Rattle.std.specs.List.{prefix_len};
ghost use Rattle.jp_lexer.specs.Scanning.{close_len};

/// How many bytes stand in front of the end of the line or of the text.
pub(crate) fn line_len(text: &[u8]) -> usize
    ensures exact { result ≡ prefix_len (λ b. not (b == 10)) text.now }
    ensures bound { result ≤ length text.now }
{
    text.iter().take_while(|b| **b != b'\n').count()
}

/// How many bytes there are up to the end of the first `*/`, or `None` where there is none.
pub(crate) fn close_len(text: &[u8]) -> Option<usize>
    ensures exact { result ≡ close_len text.now }
    ensures bound { IfSome result (λ n. n ≤ length text.now) }
{
    for i in 0..text.len() {
        if text[i] == b'*' && i + 1 < text.len() && text[i + 1] == b'/' {
            return Some(i + 2);
        }
    }
    None
}
