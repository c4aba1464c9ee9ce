// What holds of lengths and packets, whoever reads or writes them.
ghost use Rattle.std.specs.Prelude.{◌≡◌, ℕ, ◌^◌, ◌<◌, ◌≤◌, ◌⊎◌, ◌↔◌, ◌++◌, ◌∷◌, [], List, length, take, None};
ghost use Rattle.my_wire.specs.Grammar.{IsBytes, Begins};
ghost use Rattle.my_wire.specs.Lenenc.{IsLenenc, lenenc, lenenc_at};
ghost use Rattle.my_wire.specs.declared.lenenc.Lenenc.TheVariants.{Number, Null, Short, Bad};
ghost use Rattle.my_wire.specs.declared.packet.WireFault.{WireFault};
ghost use Rattle.my_wire.specs.Packets.{Stream, Splits, HasGiven, Whole, Refused, first_packet, most, packet, IsRefused, given, with_held};

/// A number is found at the front of bytes exactly where one of its forms stands there.
pub fn lengths_are_read()
    ensures found { (bytes : List ℕ) (value used : ℕ) → lenenc_at bytes ≡ Number value used → (used ≤ length bytes) × IsLenenc (take used bytes) value }
    ensures only { (front rest : List ℕ) (value : ℕ) → IsLenenc front value → lenenc_at (front ++ rest) ≡ Number value (length front) }
    ensures short { (bytes : List ℕ) → lenenc_at bytes ≡ Short → Begins (λ (n : ℕ) (whole : List ℕ). IsLenenc whole n) bytes }
    ensures none { (b value : ℕ) (more rest : List ℕ) → (lenenc_at (b ∷ more) ≡ Null) ⊎ (lenenc_at (b ∷ more) ≡ Bad) → IsLenenc (b ∷ rest) value → ⊥ }
{}

/// What is written of a number is one of its forms, and none of them is shorter.
pub fn lengths_are_shortest()
    ensures form { (n : ℕ) → n < 2 ^ 64 → IsLenenc (lenenc n) n }
    ensures shortest { (n : ℕ) (bytes : List ℕ) → IsBytes bytes → IsLenenc bytes n → length (lenenc n) ≤ length bytes }
{}

/// A packet is found at the front of a stream exactly where one stands there, and a refusal exactly where its header does.
pub fn packets_are_found()
    ensures found { (expected : ℕ) (bytes payload rest : List ℕ) → IsBytes bytes → first_packet expected bytes ≡ Whole payload rest → (bytes ≡ packet expected payload ++ rest) × (length payload ≤ most) }
    ensures only { (expected : ℕ) (payload rest : List ℕ) → length payload ≤ most → first_packet expected (packet expected payload ++ rest) ≡ Whole payload rest }
    ensures refused { (expected : ℕ) (bytes : List ℕ) (fault : WireFault) → IsBytes bytes → (first_packet expected bytes ≡ Refused fault) ↔ IsRefused expected bytes fault }
{}

/// The payloads that a reader has given, with the bytes that it holds, are the stream that it was fed, however that was
/// cut into pieces.
pub fn payloads_are_the_stream()
    ensures begun { (first : ℕ) → HasGiven first [] [] (record { held = []; expected = first; refused = None }) }
    ensures fed { (first : ℕ) (stream piece : List ℕ) (payloads : List (List ℕ)) (s : Stream) → IsBytes piece → HasGiven first stream payloads s → HasGiven first (stream ++ piece) payloads (with_held s (s.held ++ piece)) }
    ensures gave { (first : ℕ) (stream payload rest : List ℕ) (payloads : List (List ℕ)) (s : Stream) → first_packet s.expected s.held ≡ Whole payload rest → HasGiven first stream payloads s → HasGiven first stream (payloads ++ payload ∷ []) (given s rest) }
{}

/// A stream is packets in one way: up to bytes at whose front no packet stands, their payloads are determined.
pub fn streams_split_in_one_way()
    ensures { (first : ℕ) (stream : List ℕ) (ps qs : List (List ℕ)) (r t : List ℕ) → Splits first stream ps r → Splits first stream qs t → (ps ≡ qs) × (r ≡ t) }
{}
