//! Clients: each request of a connection is one.

ghost use Rattle.std.specs.Prelude.{◌≡◌, ◌<◌, ◌^◌};
ghost use Rattle.serving.specs.Clients.{client_of, connection_of, is_own, number_of};

/// A client's number has the connection above so many numbers of requests.
const NUMBERS: u64 = 4_294_967_296;

/// The client that a request of a connection is.
pub fn client_of(connection: u32, number: u32) -> u64
    ensures { result ≡ client_of connection number }
{
    connection as u64 * NUMBERS + number as u64
}

/// Its connection; 0 where the server asks for itself.
pub fn connection_of(client: u64) -> u32
    ensures { result ≡ connection_of client }
{
    (client / NUMBERS) as u32
}

/// Its number.
pub fn number_of(client: u64) -> u32
    ensures { result ≡ number_of client }
{
    (client % NUMBERS) as u32
}

/// Whether the server asks for itself.
pub fn is_own(client: u64) -> bool
    ensures { result ≡ is_own client }
{
    client < NUMBERS
}
