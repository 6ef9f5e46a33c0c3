//! Ids and lines as numbers.

ghost use Rattle.std.specs.Prelude.{◌≡◌};
ghost use Rattle.oz_buffer.specs.courses.Courses.{id_key, line_key};

use oz_requests::AskId;

/// The number of a line.
pub fn number_of_line(client: u16, line: u16) -> u64
    ensures { result ≡ line_key client line }
{
    u64::from(client) * 65536 + u64::from(line)
}

/// The number of an id.
pub fn number_of_id(id: AskId) -> u64
    ensures { result ≡ id_key id }
{
    number_of_line(id.client, id.line) * 65536 + u64::from(id.step)
}
