// What holds of the replies of a server, payload by payload.
ghost use Rattle.std.specs.Prelude.{◌≡◌, ℕ, ◌++◌, ◌∷◌, [], List};
ghost use Rattle.my_wire.specs.Grammar.{IsBytes, FirstBad};
ghost use Rattle.my_messages.specs.Command.{IsCommand};
ghost use Rattle.my_messages.specs.Reply.{HasBytes, IsReply, IsReplyValue, payloads_of};
ghost use Rattle.my_messages.specs.Replies.{Goes, Gives, Stops, push_at, LeadsTo, Admits, IsNext, Answers};
ghost use Rattle.my_messages.specs.declared.command.Command.{Command};
ghost use Rattle.my_messages.specs.declared.reply.Reply.{Reply};
ghost use Rattle.my_messages.specs.declared.stage.Stage.{Stage};
ghost use Rattle.my_messages.specs.declared.stage.Stage.TheVariants as stages;

/// A payload is of one command.
pub fn payloads_have_one_command()
    ensures { (payload : List ℕ) (c d : Command) → IsCommand c payload → IsCommand d payload → c ≡ d }
{}

/// The payloads that a reader took lead to its stage; a reply that it gives is the one that they spell; the stage admits
/// exactly the payloads that may follow them in a reply; and a refusal tells the first byte that no such payload with the same earlier bytes has.
pub fn replies_are_read()
    ensures begun { LeadsTo [] stages.First }
    ensures goes { (payloads : List (List ℕ)) (s t : Stage) (payload : List ℕ) → LeadsTo payloads s → push_at s payload ≡ Goes t → LeadsTo (payloads ++ payload ∷ []) t }
    ensures gives { (payloads : List (List ℕ)) (s : Stage) (payload : List ℕ) (reply : Reply) → LeadsTo payloads s → push_at s payload ≡ Gives reply → IsReply reply (payloads ++ payload ∷ []) }
    ensures accepts { (payloads more : List (List ℕ)) (s : Stage) (payload : List ℕ) (reply : Reply) → LeadsTo payloads s → IsReply reply (payloads ++ payload ∷ more) → Admits s payload }
    ensures admits { (payloads : List (List ℕ)) (s : Stage) (payload : List ℕ) → LeadsTo payloads s → Admits s payload → IsNext payloads payload }
    ensures stops { (payloads : List (List ℕ)) (s : Stage) (payload : List ℕ) (place : ℕ) → LeadsTo payloads s → IsBytes payload → push_at s payload ≡ Stops place → FirstBad (λ (u : Unit {0}) (bytes : List ℕ). IsNext payloads bytes) payload place }
{}

/// The payloads that are written of a reply are that reply.
pub fn replies_are_written()
    ensures { (reply : Reply) → HasBytes reply → IsReplyValue reply → IsReply reply (payloads_of reply) }
{}

/// The payloads of a reply, in whatever form they spell it, are read as that reply, so they spell no other; and what is
/// written of a reply is read back as it.
pub fn replies_are_read_back()
    ensures whole { (reply : Reply) (payloads : List (List ℕ)) → IsReply reply payloads → Answers stages.First payloads reply }
    ensures once { (r q : Reply) (payloads : List (List ℕ)) → IsReply r payloads → IsReply q payloads → r ≡ q }
    ensures written { (reply : Reply) → HasBytes reply → IsReplyValue reply → Answers stages.First (payloads_of reply) reply }
{}
