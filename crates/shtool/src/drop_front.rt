//! The front of what is held.
ghost use Rattle.std.specs.Prelude.{◌≡◌, ◌≤◌, drop, length};

/// Takes so many bytes away at the front.
pub(crate) fn drop_front(text: &mut Vec<u8>, count: usize)
    requires { count ≤ length text.old.items }
    ensures { text.new.items ≡ drop count text.old.items }
{
    let len = text.len();
    text.copy_within(count..len, 0);
    text.truncate(len - count);
}
