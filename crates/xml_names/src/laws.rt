//! Laws about the definitions that the contract of `Scopes` cites. They do nothing.
ghost use Rattle.xml_names.specs.Laws.{BindsAttributes, BindsElement, BindsNearest, BindsNoXmlns, BindsNothing, BindsXml, DeclaresOnce, DefaultsElements, DefaultsNoAttributes, NamesOnce, QNamesAreSpelled, SpelledQNamesAreRead, TakesAway};

/// A name is taken apart exactly as it is spelled (Namespaces in XML 1.0, 4).
pub fn qnames()
    ensures spelled { QNamesAreSpelled }
    ensures read { SpelledQNamesAreRead }
{}

/// A prefix is bound by its nearest declaration (Namespaces in XML 1.0, 6.1).
pub fn scope()
    ensures nearest { BindsNearest }
    ensures taken_away { TakesAway }
    ensures nothing { BindsNothing }
    ensures xml { BindsXml }
    ensures xmlns { BindsNoXmlns }
{}

/// The default namespace is that of elements alone (Namespaces in XML 1.0, 6.2).
pub fn defaults()
    ensures elements { DefaultsElements }
    ensures attributes { DefaultsNoAttributes }
{}

/// A tag that is taken has each prefix bound, and no name twice (Namespaces in XML 1.0, 5 and 6.3).
pub fn taken_tags()
    ensures element { BindsElement }
    ensures attributes { BindsAttributes }
    ensures names { NamesOnce }
    ensures declarations { DeclaresOnce }
{}
