ghost use Rattle.std.specs.Prelude.{◌≡◌, true, ℕ, IfOk, OnErr};
ghost use Rattle.sql_text.specs.declared.link.LinkRequest.{LinkRequest};
ghost use Rattle.sql_text.specs.declared.link.LinkAnswer.{LinkAnswer};
ghost use Rattle.front_node.specs.Asking.{has_form};

use sql_text::{LinkAnswer, LinkRequest};
use sql_values::ServerNo;
use std::alloc::{AllocError, Global};

/// The servers that hold a front's tables.
pub trait Backs {
    /// From the first state to the second that server was asked this request, and answered so.
    ghost asks: { Self → ℕ → LinkRequest → LinkAnswer → Self → Type 0 };

    /// Asks a server. Its answer has the request's form: rows or aggregates to a scan, as it asks, names of branches to the question for prepared ones, done to
    /// any other request, or a refusal to each. After want of memory nothing has changed.
    fn ask(
        &mut self,
        alloc: Global,
        server: ServerNo,
        request: &LinkRequest,
    ) -> Result<LinkAnswer, AllocError>
        ensures asked { IfOk result (λ answer. asks self.old server request.now answer self.new) }
        ensures form { IfOk result (λ answer. has_form request.now answer ≡ true) }
        ensures unchanged { OnErr result (self.new ≡ self.old) };
}
