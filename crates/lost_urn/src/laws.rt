//! Laws that callers may rest on. Each function's contract is the law, and its body is empty.
ghost use Rattle.std.specs.Prelude.{◌≡◌, Ok, IsTrue};
ghost use Rattle.std.specs.Ordering.{nat_cmp};
ghost use Rattle.std.specs.Cmp.Lexicographic.{slice_cmp};
ghost use Rattle.lost_spec.specs.Text.{Text};
ghost use Rattle.lost_spec.specs.Service.{Service, is_service, read_service, service_text};
ghost use Rattle.lost_urn.specs.Order.{service_cmp};

/// Reading the text of a service gives the service (RFC 5031, section 3).
pub fn text_reads_back()
    ensures { (s : Service) → IsTrue (is_service s) → read_service (service_text s) ≡ Ok s }
{}

/// What was read is a service.
pub fn read_is_service()
    ensures { (text : Text) (s : Service) → read_service text ≡ Ok s → IsTrue (is_service s) }
{}

/// Services with one text are one service.
pub fn one_text_one_service()
    ensures { (s u : Service) → IsTrue (is_service s) → IsTrue (is_service u) → service_text s ≡ service_text u → s ≡ u }
{}

/// The order of services is the order of their texts.
pub fn order_is_of_texts()
    ensures { (s u : Service) → IsTrue (is_service s) → IsTrue (is_service u) → service_cmp s u ≡ slice_cmp nat_cmp (service_text s) (service_text u) }
{}
