//! The worked rows that need no text of JSON. Each function's contract is a row, which the check proves by computing.
//! The last ones are our own: they settle what the others leave open, above all which refusal comes first.

ghost use Rattle.lost_spec.specs.Rows.{Urn, Stamps, Empty, OneMapping, StagedOnly, SharedEdge, OuterEdge, Poles, Fallback, Defaults, Profiles, ReplaceWithdraw, Refusals, ReplaceCodes, ReplaceByDefault, LimitsRow, DeskCodes, BadLines, BadPatterns, CivicRow, UnaskedValidation, ValidateAPoint, TwoProfiles, Expiry, BoundaryAndPath, ServicesByLocation};
ghost use Rattle.lost_spec.specs.OwnRows.{FirstFaults, LabelOrder, Comparison, EditOrder, DeskOrder, AnswerOrder, LongestFirst, ReferencePatterns, NameOrder};
ghost use Rattle.lost_spec.specs.BoundRows.{StampFractions, StampBounds, DayOrder, ServiceBounds, TextBounds, UriBounds, PlaceBounds, PairBounds, PartsBounds, CivicNames};
ghost use Rattle.lost_spec.specs.MoreRows.{Slopes, KeptAsGiven, FreedKey, PatternChange, LaterDay, Expired, OtherReference, DefaultAsked, DeepServices, Paths, UnfittingBodies, Additive, ExactCase};
ghost use Rattle.lost_spec.specs.DecimalRows.{DecimalTexts, NoDecimals};
ghost use Rattle.lost_spec.specs.TraceRows.{PublishedAgain, TracesLimit, WithdrawnBeforeFull, AllowedTraces, TraceOrder, OtherIdentities, WhichTraces};
ghost use Rattle.lost_spec.specs.TokenRows.{TokenBounds, TokenSetBounds, TokenMembers, TokenServed, TokenRegions, ThreeKinds, TokenChange, UnfittingTokens};

/// A text spells a service URN, or is refused by the first check that fails.
pub fn urn()
    ensures { Urn }
{}

/// A text is a stamp or a source, or it is not.
pub fn stamps()
    ensures { Stamps }
{}

/// A server with no edits implements no service.
pub fn empty()
    ensures { Empty }
{}

/// A mapping is handed in, accepted and found.
pub fn one_mapping()
    ensures { OneMapping }
{}

/// A mapping that is staged and not published is not found.
pub fn staged_only()
    ensures { StagedOnly }
{}

/// A point on the edge that two areas share is in one of them.
pub fn shared_edge()
    ensures { SharedEdge }
{}

/// The lower left corner of an area belongs to it, and its upper edge does not.
pub fn outer_edge()
    ensures { OuterEdge }
{}

/// The pole and the last meridian belong to the world.
pub fn poles()
    ensures { Poles }
{}

/// For a service that no mapping has, the one above it is found, with a warning.
pub fn fallback()
    ensures { Fallback }
{}

/// A default is found where no other mapping holds the place.
pub fn defaults()
    ensures { Defaults }
{}

/// A location of an unknown profile is skipped.
pub fn profiles()
    ensures { Profiles }
{}

/// A replacement keeps its place in the order, and a withdrawal leaves no gap.
pub fn replace_withdraw()
    ensures { ReplaceWithdraw }
{}

/// Each refusal of an edit leaves the book as it was.
pub fn refusals()
    ensures { Refusals }
{}

/// The refusals of a replacement come in their order, and a new key is accepted.
pub fn replace_codes()
    ensures { ReplaceCodes }
{}

/// A replacement by a default is accepted.
pub fn replace_by_default()
    ensures { ReplaceByDefault }
{}

/// A book keeps to its limits.
pub fn limits()
    ensures { LimitsRow }
{}

/// A bad number, a region at a default, a missing region, too many names or a missing key is refused.
pub fn desk_codes()
    ensures { DeskCodes }
{}

/// A missing URI, two URIs of one scheme or a ring of three positions is refused.
pub fn bad_lines()
    ensures { BadLines }
{}

/// An empty pattern, a pattern with an unknown element, or too many patterns are refused.
pub fn bad_patterns()
    ensures { BadPatterns }
{}

/// An address is found by a pattern, and validated.
pub fn civic()
    ensures { CivicRow }
{}

/// An address is not validated unless that is asked for.
pub fn unasked_validation()
    ensures { UnaskedValidation }
{}

/// A point is not validated.
pub fn validate_a_point()
    ensures { ValidateAPoint }
{}

/// A mapping with regions of both profiles is found by either.
pub fn two_profiles()
    ensures { TwoProfiles }
{}

/// A mapping is live before the instant at which it expires, and not at that instant.
pub fn expiry()
    ensures { Expiry }
{}

/// A boundary is shown by key and by value, and a path with the server's own name is a loop.
pub fn boundary_and_path()
    ensures { BoundaryAndPath }
{}

/// The services one label below the one asked are listed.
pub fn services_by_location()
    ensures { ServicesByLocation }
{}

/// Where several refusals of a point, a ring, an address or a pattern apply, the first comes.
pub fn first_faults()
    ensures { FirstFaults }
{}

/// Labels are checked from the left, and their number last.
pub fn label_order()
    ensures { LabelOrder }
{}

/// A comparison text has single spaces, trimmed ends and lower ASCII letters.
pub fn comparison()
    ensures { Comparison }
{}

/// The refusals of an edit come in their order.
pub fn edit_order()
    ensures { EditOrder }
{}

/// The refusals of parts come in their order.
pub fn desk_order()
    ensures { DeskOrder }
{}

/// The errors of an answer come in their order, and the first location of a known profile is used.
pub fn answer_order()
    ensures { AnswerOrder }
{}

/// The longest service with a holder is found, and a default only where there is no holder.
pub fn longest_first()
    ensures { LongestFirst }
{}

/// A pattern that disagrees with a valid element is no reference.
pub fn reference_patterns()
    ensures { ReferencePatterns }
{}

/// The names of a validation come in their order.
pub fn name_order()
    ensures { NameOrder }
{}

/// A fraction has one to nine digits, and absent ones are zeros.
pub fn stamp_fractions()
    ensures { StampFractions }
{}

/// The last hour, minute, second, month, day and year are read, and those past them are not.
pub fn stamp_bounds()
    ensures { StampBounds }
{}

/// The day decides which of two instants is earlier, and the nanosecond only within a day.
pub fn day_order()
    ensures { DayOrder }
{}

/// Digits stand in labels, the bytes beside them do not, and there are 8 labels at most.
pub fn service_bounds()
    ensures { ServiceBounds }
{}

/// Sources, ids and numbers at their bounds and past them.
pub fn text_bounds()
    ensures { TextBounds }
{}

/// Which texts are URIs, the longest, and how many there are.
pub fn uri_bounds()
    ensures { UriBounds }
{}

/// The last latitudes and longitudes, the pole taken one unit lower, and the longest ring.
pub fn place_bounds()
    ensures { PlaceBounds }
{}

/// The longest names and values and the most pairs of an address and a pattern, and one more.
pub fn pair_bounds()
    ensures { PairBounds }
{}

/// The most polygons, patterns and display names, and one more.
pub fn parts_bounds()
    ensures { PartsBounds }
{}

/// Every civic name, as the standards spell it, and their order.
pub fn civic_names()
    ensures { CivicNames }
{}

/// The sides of edges that slope, in each direction.
pub fn slopes()
    ensures { Slopes }
{}

/// A mapping has all that its parts have.
pub fn kept_as_given()
    ensures { KeptAsGiven }
{}

/// A key that was given up is free.
pub fn freed_key()
    ensures { FreedKey }
{}

/// A replacement that changes patterns alone needs a new key.
pub fn pattern_change()
    ensures { PatternChange }
{}

/// A later day is newer at an earlier hour.
pub fn later_day()
    ensures { LaterDay }
{}

/// An expired mapping answers no request, and is still held.
pub fn expired()
    ensures { Expired }
{}

/// A pattern of a mapping that was not found is a reference.
pub fn other_reference()
    ensures { OtherReference }
{}

/// A default has no boundary by value, and at a point no warning of validation.
pub fn default_asked()
    ensures { DefaultAsked }
{}

/// A service two labels below the one asked is listed as the one above it.
pub fn deep_services()
    ensures { DeepServices }
{}

/// Each kind of reply has the path of its request, and a boundary has polygons and patterns.
pub fn paths()
    ensures { Paths }
{}

/// A location whose body is not of its profile's kind is no place.
pub fn unfitting_bodies()
    ensures { UnfittingBodies }
{}

/// A mapping holds a place that any of its polygons holds.
pub fn additive()
    ensures { Additive }
{}

/// Keys, sourceIds, profiles and the words of expiry are compared in exact case.
pub fn exact_case()
    ensures { ExactCase }
{}

/// A publish of an identity that was withdrawn is accepted only with a later stamp than the withdrawal's.
pub fn published_again()
    ensures { PublishedAgain }
{}

/// At the limit of traces nothing more is withdrawn, until one of their identities is published.
pub fn traces_limit()
    ensures { TracesLimit }
{}

/// A stamp that is not later is refused before a full book is.
pub fn withdrawn_before_full()
    ensures { WithdrawnBeforeFull }
{}

/// How many traces are allowed.
pub fn allowed_traces()
    ensures { AllowedTraces }
{}

/// The refusals of traces come among the others in their order.
pub fn trace_order()
    ensures { TraceOrder }
{}

/// Another source or another sourceId alone is another identity.
pub fn other_identities()
    ensures { OtherIdentities }
{}

/// A withdrawal adds a trace at the end, a replacement changes none, and a publish removes its own.
pub fn which_traces()
    ensures { WhichTraces }
{}

/// A text spells a latitude and a longitude in degrees.
pub fn decimal_texts()
    ensures { DecimalTexts }
{}

/// Any other text spells no position.
pub fn no_decimals()
    ensures { NoDecimals }
{}

/// Tokens at their bounds and past them, and the bytes that no token has.
pub fn token_bounds()
    ensures { TokenBounds }
{}

/// The largest token set and a larger list, and lists that are none.
pub fn token_set_bounds()
    ensures { TokenSetBounds }
{}

/// Which tokens a set contains.
pub fn token_members()
    ensures { TokenMembers }
{}

/// A mapping is found by a token of its set alone, and shows the set as given.
pub fn token_served()
    ensures { TokenServed }
{}

/// Regions that are no token set, and too many that are.
pub fn token_regions()
    ensures { TokenRegions }
{}

/// A mapping with regions of all kinds is found by each, and shown with those of the location used.
pub fn three_kinds()
    ensures { ThreeKinds }
{}

/// A replacement that changes tokens, or their order, wants a new key.
pub fn token_change()
    ensures { TokenChange }
{}

/// Content that is not of its profile's kind is no place.
pub fn unfitting_tokens()
    ensures { UnfittingTokens }
{}
