// Predicates of a message's tag.
ghost use Rattle.std.specs.Prelude.{◌≡◌};
ghost use Rattle.frames.specs.Tag.{is_error, is_ready_for_query, is_copy_both_response, is_copy_data, is_auth_request};

pub fn is_error(tag: u8) -> bool
    ensures { result ≡ is_error tag }
{
    tag == b'E'
}

pub fn is_ready_for_query(tag: u8) -> bool
    ensures { result ≡ is_ready_for_query tag }
{
    tag == b'Z'
}

pub fn is_copy_both_response(tag: u8) -> bool
    ensures { result ≡ is_copy_both_response tag }
{
    tag == b'W'
}

pub fn is_copy_data(tag: u8) -> bool
    ensures { result ≡ is_copy_data tag }
{
    tag == b'd'
}

pub fn is_auth_request(tag: u8) -> bool
    ensures { result ≡ is_auth_request tag }
{
    tag == b'R'
}
